// The codes that a reading knows: what CH and CL test, what CS does, and which are not modelled.
#![tactic(auto)]

mod branches;
mod modelled;
mod status;

ghost use Rattle.std.specs.Prelude.{◌≡◌};
ghost use Rattle.codes.specs.Reading.{is_basic};

pub use branches::{high_branch, low_branch};
pub use modelled::unmodelled;
pub use status::changed;

// How a store is read: as the basic machine's, or as the figure of the 1620 feature gives it.
#[derive(Clone, Copy)]
pub enum Reading {
    Basic,
    Compatibility,
}

impl Reading {
    fn is_basic(self) -> bool
        ensures { result ≡ is_basic self }
    {
        matches!(self, Reading::Basic)
    }
}

// What a branch may test.
#[derive(Clone, Copy)]
pub struct Tested {
    pub r: u8,
    pub v: u8,
    pub s: u8,
    pub g: u8,
    pub ac: bool,
    pub one_bc: bool,
    pub z0: bool,
}
