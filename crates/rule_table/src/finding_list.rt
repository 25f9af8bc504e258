//! Findings in a list.
ghost use Rattle.std.specs.Prelude.{◌≡◌, ◌<◌, [], ◌∷◌, ◌++◌, length, OnOk, OnErr, slice_get, Some};

use crate::finding::Finding;
use feed_values::Items;
use std::alloc::{AllocError, Global};
use std::marker::Model;

/// A list of findings, which contracts see as a list.
#[derive(Drop)]
pub struct FindingList {
    findings: Vec<Finding>,
}

impl Model for FindingList {
    ghost use Rattle.std.specs.Prelude.{List};
    ghost use Rattle.rule_table.specs.Found.{Found};

    ghost Value = { List Found };

    ghost view = { λ s. s.findings.items };
}

impl FindingList {
    /// An empty list. It takes no memory.
    pub fn new(alloc: Global) -> FindingList
        ensures { result ≡ [] }
    {
        FindingList {
            findings: Vec::new(alloc),
        }
    }

    /// Appends a finding. After want of memory the list is as before.
    pub fn push(&mut self, finding: Finding) -> Result<(), AllocError>
        ensures ok { OnOk result (self.new ≡ self.old ++ finding ∷ []) }
        ensures err { OnErr result (self.new ≡ self.old) }
    {
        self.findings.push(finding)?;
        Ok(())
    }

    pub fn len(&self) -> usize
        ensures { result ≡ length self.now }
    {
        self.findings.len()
    }

    pub fn get(&self, i: usize) -> &Finding
        requires { i < length self.now }
        ensures { Some result.now ≡ slice_get self.now i }
    {
        &self.findings[i]
    }

    /// The findings as items, in order. It takes no memory.
    pub fn into_items(self) -> Items<Finding>
        ensures { result ≡ self }
    {
        let FindingList { findings } = self;
        Items::from_vec(findings)
    }
}
