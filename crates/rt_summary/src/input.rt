//! Standard input.
ghost use Rattle.std.specs.Prelude.{◌≡◌};

use rt_outside::{Failed, Files, Opening};
use std::io::{Read, Stdin};
use std::marker::Model;

/// Standard input, as a file that is open whatever its name is. What it holds isn't told.
#[derive(Drop)]
pub struct StandardInput {
    stdin: Stdin,
    faults: u64,
}

impl Model for StandardInput {
    ghost use Rattle.std.specs.Prelude.{ℕ};

    // How often a call has failed.
    ghost Value = { ℕ };

    ghost view = { λ input. input.faults };
}

impl StandardInput {
    pub fn new(rt: &HostRuntime) -> StandardInput
        ensures { result ≡ 0 }
    {
        StandardInput {
            stdin: rt.stdin(),
            faults: 0,
        }
    }
}

impl Files for StandardInput {
    ghost use Rattle.std.specs.Prelude.{None};

    ghost state = { λ faults. record { told = None; asked = None; faults = faults } };

    fn open_file(&mut self, _name: &str) -> Opening {
        Opening::Opened
    }

    fn pull(&mut self, buf: &mut [u8]) -> Result<usize, Failed> {
        match self.stdin.read(buf) {
            Ok(count) => Ok(count),
            Err(_) => {
                self.faults = self.faults.saturating_add(1);
                Err(Failed)
            }
        }
    }
}
