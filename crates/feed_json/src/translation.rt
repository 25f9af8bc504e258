//! Texts in several languages, in JSON.

use crate::json_fault::JsonFault;
use crate::message::{Form, repeated};
use crate::reading::{needed_text, optional_text};
use crate::unknown::{UnknownItems, put_unknown, unknown_fields};
use crate::writing::{put_optional_text, put_repeated, put_text};
use feed_values::{Slots, TranslatedString, Translation, Unknown};
use serde_json::{Map, Value};
use std::alloc::{AllocError, Global};

impl UnknownItems for TranslatedString {
    fn is_item(field: &Unknown) -> bool {
        !TranslatedString::takes(field)
    }
}

impl Form for TranslatedString {
    fn names() -> &'static [&'static str] {
        &["translation", "unknown"]
    }

    fn read(alloc: Global, value: &Value) -> Result<TranslatedString, JsonFault> {
        Ok(TranslatedString {
            translation: repeated(alloc, value, "translation")?,
            unknown: unknown_fields::<TranslatedString>(alloc, value)?,
        })
    }

    fn put(&self, alloc: Global, members: &mut Map<String, Value>) -> Result<(), AllocError> {
        put_repeated(alloc, members, "translation", &self.translation)?;
        put_unknown(alloc, members, &self.unknown)
    }
}

impl UnknownItems for Translation {
    fn is_item(field: &Unknown) -> bool {
        !Translation::takes(field)
    }
}

impl Form for Translation {
    fn names() -> &'static [&'static str] {
        &["text", "language", "unknown"]
    }

    fn read(alloc: Global, value: &Value) -> Result<Translation, JsonFault> {
        Ok(Translation {
            text: needed_text(alloc, value, "text")?,
            language: optional_text(alloc, value, "language")?,
            unknown: unknown_fields::<Translation>(alloc, value)?,
        })
    }

    fn put(&self, alloc: Global, members: &mut Map<String, Value>) -> Result<(), AllocError> {
        put_text(alloc, members, "text", &self.text)?;
        put_optional_text(alloc, members, "language", &self.language)?;
        put_unknown(alloc, members, &self.unknown)
    }
}
