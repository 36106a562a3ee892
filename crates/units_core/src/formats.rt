ghost use Rattle.std.specs.Prelude.{◌≡◌, List, ℕ, OnErr, OnOk};
ghost use Rattle.units_core.specs.Formats.{parts_of, Sets};
ghost use Rattle.units_core.specs.declared.formats.FirstPart.{FirstPart};
ghost use Rattle.units_core.specs.declared.formats.FirstPart.TheVariants as part;

use std::alloc::Global;
use std::collections::BTreeMap;
use value_core::{Memory, Text};

/// What the first part of a number format says, the part for numbers above 0.
#[derive(Clone, Copy, Debug, PartialEq, Eq)]
pub enum FirstPart {
    /// A number: how many percent signs, whether thousands are set apart, how many digits behind the point.
    Number {
        percent: u32,
        use_thousands: bool,
        precision: i32,
    },
    /// A date.
    Date,
    /// The value as it is.
    General,
    /// A text that is no number format.
    Error,
    /// Nothing is known of it.
    None,
}

/// A reader of number formats.
pub trait Formats {
    ghost first_part: { Self → List ℕ → FirstPart };

    /// What the first part of a number format says: a function of its text alone. It takes no memory.
    fn first_part(&self, num_fmt: &str) -> FirstPart
        ensures { result ≡ first_part self.now num_fmt.now };
}

/// Number formats whose first parts were set, in an ordered map.
#[derive(Debug, Drop)]
pub struct MapFormats {
    pub(crate) parts: BTreeMap<String, FirstPart>,
    alloc: Global,
}

impl MapFormats {
    /// Formats of which nothing is known. It takes no memory.
    pub fn new(alloc: Global) -> MapFormats
        ensures { (num_fmt : List ℕ) → parts_of result num_fmt ≡ part.None }
    {
        MapFormats {
            parts: BTreeMap::new(alloc),
            alloc,
        }
    }

    /// Says what the first part of a format is, in place of what was said of it before. For want of memory nothing changes.
    pub fn set(&mut self, num_fmt: Text, part: FirstPart) -> Result<(), Memory>
        ensures done { OnOk result (Sets (parts_of self.old) (parts_of self.new) num_fmt part) }
        ensures kept { OnErr result (parts_of self.new ≡ parts_of self.old) }
    {
        let key = String::from_str(self.alloc, num_fmt.as_str())?;
        self.parts.insert(key, part)?;
        Ok(())
    }
}

impl Formats for MapFormats {
    ghost first_part = { parts_of };

    fn first_part(&self, num_fmt: &str) -> FirstPart {
        match self.parts.get(num_fmt) {
            Some(part) => *part,
            None => FirstPart::None,
        }
    }
}
