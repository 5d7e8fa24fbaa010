//! One right.

ghost use Rattle.std.specs.Prelude.{◌≡◌, ◌↔◌, ◌<◌, ℕ, false, IsTrue, IsSome, IfSome};
ghost use Rattle.hk_rights.specs.Rights.{is_right, name_of, number_named, has, IsRightsWord};

use crate::word::RightsWord;
use bitflags::Flags;
use std::marker::Model;

/// One of the 19 rights, by the number of its bit: 0 to 10 or 16 to 23 (`docs/RULES.md`, "Rights").
#[derive(Clone, Copy, PartialEq, Eq, Debug)]
pub struct Right {
    bit: u8,
}

impl Model for Right {
    ghost use Rattle.std.specs.Prelude.{ℕ, IsTrue};
    ghost use Rattle.hk_rights.specs.Rights.{is_right};

    ghost Value = { ℕ };

    ghost view = { λ right. right.bit };

    ghost invariant = { λ right. IsTrue (is_right right.bit) };

    ghost inverse = { λ number. record { bit = number } };
}

impl Right {
    /// The right GETDATA (`docs/RULES.md`, "Rights").
    pub const GETDATA: Right = Right { bit: 0 };

    /// The right PUTDATA (`docs/RULES.md`, "Rights").
    pub const PUTDATA: Right = Right { bit: 1 };

    /// The right ADDDATA (`docs/RULES.md`, "Rights").
    pub const ADDDATA: Right = Right { bit: 2 };

    /// The right LOAD (`docs/RULES.md`, "Rights").
    pub const LOAD: Right = Right { bit: 3 };

    /// The right STORE (`docs/RULES.md`, "Rights").
    pub const STORE: Right = Right { bit: 4 };

    /// The right APPEND (`docs/RULES.md`, "Rights").
    pub const APPEND: Right = Right { bit: 5 };

    /// The right KILL (`docs/RULES.md`, "Rights").
    pub const KILL: Right = Right { bit: 6 };

    /// The right COPY (`docs/RULES.md`, "Rights").
    pub const COPY: Right = Right { bit: 7 };

    /// The right MODIFY (`docs/RULES.md`, "Rights").
    pub const MODIFY: Right = Right { bit: 8 };

    /// The right ENV (`docs/RULES.md`, "Rights").
    pub const ENV: Right = Right { bit: 9 };

    /// The right UNCONF (`docs/RULES.md`, "Rights").
    pub const UNCONF: Right = Right { bit: 10 };

    /// The right A0 (`docs/RULES.md`, "Rights").
    pub const A0: Right = Right { bit: 16 };

    /// The right A1 (`docs/RULES.md`, "Rights").
    pub const A1: Right = Right { bit: 17 };
}

impl Right {
    /// The right of this number (`docs/RULES.md`, "Rights"). None exactly where no right has it.
    pub fn new(bit: u8) -> Option<Right>
        ensures known { IsSome result ↔ IsTrue (is_right bit) }
        ensures same { IfSome result (λ right. right ≡ bit) }
    {
        match bit {
            0..=10 | 16..=23 => Some(Right { bit }),
            _ => None,
        }
    }

    /// The number of this right's bit: 0 to 10 or 16 to 23 (`docs/RULES.md`, "Rights").
    pub fn number(self) -> u8
        ensures same { result ≡ self }
        ensures known { IsTrue (is_right result) }
        ensures small { result < 24 }
    {
        self.bit
    }

    /// The name of this right (`docs/RULES.md`, "Rights").
    #[tactic(auto, unfolding(crate::specs::Rights::name_of, crate::specs::Rights::right_table))]
    pub fn name(self) -> &'static str
        ensures { result.now ≡ name_of self }
    {
        match self.bit {
            0 => "GETDATA",
            1 => "PUTDATA",
            2 => "ADDDATA",
            3 => "LOAD",
            4 => "STORE",
            5 => "APPEND",
            6 => "KILL",
            7 => "COPY",
            8 => "MODIFY",
            9 => "ENV",
            10 => "UNCONF",
            16 => "A0",
            17 => "A1",
            18 => "A2",
            19 => "A3",
            20 => "A4",
            21 => "A5",
            22 => "A6",
            23 => "A7",
            _ => unreachable!(),
        }
    }

    /// The right of this name (`docs/RULES.md`, "Rights"). None exactly where no right has it: the name is spelled in
    /// capitals, and is that of one right alone.
    pub fn by_name(name: &str) -> Option<Right>
        ensures { result ≡ number_named name.now }
    {
        match RightsWord::from_name(name) {
            None => None,
            Some(word) => Some(Right::lowest(word.bits())),
        }
    }

    /// The right of the lowest bit of a rights word that is not 0.
    pub(crate) fn lowest(word: u32) -> Right
        requires rights { IsRightsWord word }
        requires some { 0 < word }
        ensures there { IsTrue (has word result) }
        ensures least { (n : ℕ) → n < result → has word n ≡ false }
    {
        Right {
            bit: word.trailing_zeros() as u8,
        }
    }
}
