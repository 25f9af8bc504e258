//! Texts in several languages, written.

use crate::encoding::held::Held;
use crate::encoding::{Encode, put_unknown};
use feed_values::{TranslatedString, Translation};
use std::alloc::{AllocError, Global};

impl Encode for TranslatedString {
    fn put(&self, alloc: Global, out: &mut Vec<u8>) -> Result<(), AllocError> {
        self.translation.put_in(alloc, out, 1)?;
        put_unknown::<TranslatedString>(out, &self.unknown)
    }
}

impl Encode for Translation {
    fn put(&self, alloc: Global, out: &mut Vec<u8>) -> Result<(), AllocError> {
        self.text.put_in(alloc, out, 1)?;
        self.language.put_in(alloc, out, 2)?;
        put_unknown::<Translation>(out, &self.unknown)
    }
}
