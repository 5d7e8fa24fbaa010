//! Sets of rights.

ghost use Rattle.std.specs.Prelude.{◌≡◌, ◌↔◌, ◌==◌, ◌<◌, ◌^◌, ◌&&◌, ◌||◌, not, ℕ, false, IsTrue, IsSome, IsNone, IfSome, bit_and, bit_or};
ghost use Rattle.hk_rights.specs.Rights.{has, is_right, all_rights, IsRightsWord, HasAll, minus, first_missing};

use crate::right::Right;
use crate::word::RightsWord;
use bitflags::Flags;
use std::marker::Model;

/// A set of rights. It is seen as its word, in which exactly the bits of its rights are set (`docs/RULES.md`, "Rights").
#[derive(Clone, Copy, PartialEq, Eq, Debug)]
pub struct Rights {
    word: RightsWord,
}

impl Model for Rights {
    ghost use Rattle.std.specs.Prelude.{ℕ};
    ghost use Rattle.hk_rights.specs.Rights.{IsRightsWord};

    ghost Value = { ℕ };

    ghost view = { λ rights. rights.word.0 };

    ghost invariant = { λ rights. IsRightsWord rights.word.0 };

    ghost inverse = { λ n. record { word = record { 0 = n } } };
}

impl Rights {
    /// The set of GETDATA alone (`docs/RULES.md`, "Rights").
    pub const GETDATA: Rights = Rights {
        word: RightsWord::GETDATA,
    };

    /// The set of PUTDATA alone (`docs/RULES.md`, "Rights").
    pub const PUTDATA: Rights = Rights {
        word: RightsWord::PUTDATA,
    };

    /// The set of ADDDATA alone (`docs/RULES.md`, "Rights").
    pub const ADDDATA: Rights = Rights {
        word: RightsWord::ADDDATA,
    };

    /// The set of LOAD alone (`docs/RULES.md`, "Rights").
    pub const LOAD: Rights = Rights {
        word: RightsWord::LOAD,
    };

    /// The set of STORE alone (`docs/RULES.md`, "Rights").
    pub const STORE: Rights = Rights {
        word: RightsWord::STORE,
    };

    /// The set of APPEND alone (`docs/RULES.md`, "Rights").
    pub const APPEND: Rights = Rights {
        word: RightsWord::APPEND,
    };

    /// The set of KILL alone (`docs/RULES.md`, "Rights").
    pub const KILL: Rights = Rights {
        word: RightsWord::KILL,
    };

    /// The set of COPY alone (`docs/RULES.md`, "Rights").
    pub const COPY: Rights = Rights {
        word: RightsWord::COPY,
    };

    /// The set of MODIFY alone (`docs/RULES.md`, "Rights").
    pub const MODIFY: Rights = Rights {
        word: RightsWord::MODIFY,
    };

    /// The set of ENV alone (`docs/RULES.md`, "Rights").
    pub const ENV: Rights = Rights {
        word: RightsWord::ENV,
    };

    /// The set of UNCONF alone (`docs/RULES.md`, "Rights").
    pub const UNCONF: Rights = Rights {
        word: RightsWord::UNCONF,
    };

    /// The set of A0 alone (`docs/RULES.md`, "Rights").
    pub const A0: Rights = Rights {
        word: RightsWord::A0,
    };

    /// The set of A1 alone (`docs/RULES.md`, "Rights").
    pub const A1: Rights = Rights {
        word: RightsWord::A1,
    };

    /// The set of PUTDATA and MODIFY (`docs/RULES.md`, "Rights").
    pub const PUTDATA_MODIFY: Rights = Rights {
        word: RightsWord(0x102),
    };

    /// The set of ADDDATA and MODIFY (`docs/RULES.md`, "Rights").
    pub const ADDDATA_MODIFY: Rights = Rights {
        word: RightsWord(0x104),
    };

    /// The set of STORE and MODIFY (`docs/RULES.md`, "Rights").
    pub const STORE_MODIFY: Rights = Rights {
        word: RightsWord(0x110),
    };

    /// The set of APPEND and MODIFY (`docs/RULES.md`, "Rights").
    pub const APPEND_MODIFY: Rights = Rights {
        word: RightsWord(0x120),
    };

    /// The set of KILL and MODIFY (`docs/RULES.md`, "Rights").
    pub const KILL_MODIFY: Rights = Rights {
        word: RightsWord(0x140),
    };

    /// The set of ENV and A0 (`docs/RULES.md`, "Rights").
    pub const ENV_A0: Rights = Rights {
        word: RightsWord(0x10200),
    };

    /// The set of MODIFY and A0 (`docs/RULES.md`, "Rights").
    pub const MODIFY_A0: Rights = Rights {
        word: RightsWord(0x10100),
    };

    /// The set of MODIFY and A1 (`docs/RULES.md`, "Rights").
    pub const MODIFY_A1: Rights = Rights {
        word: RightsWord(0x20100),
    };

    /// The set of the special rights MODIFY, ENV and UNCONF (`docs/RULES.md`, "Rights").
    pub const SPECIAL: Rights = Rights {
        word: RightsWord(0x700),
    };
}

impl Rights {
    /// The set of which this is the word. None exactly where a bit is set that is no right (`docs/RULES.md`, "Rights").
    pub fn from_bits(bits: u32) -> Option<Rights>
        ensures known { IsSome result ↔ IsRightsWord bits }
        ensures same { IfSome result (λ rights. rights ≡ bits) }
    {
        match RightsWord::from_bits(bits) {
            None => None,
            Some(word) => Some(Rights { word }),
        }
    }

    /// The word of this set: bit n is set exactly where the set has the right of number n (`docs/RULES.md`, "Rights").
    pub fn bits(self) -> u32
        ensures same { result ≡ self }
        ensures known { IsRightsWord result }
        ensures small { result < 2 ^ 24 }
    {
        self.word.bits()
    }

    /// The set of no rights (`docs/RULES.md`, "Rights").
    pub fn none() -> Rights
        ensures word { result ≡ 0 }
        ensures members { (n : ℕ) → has result n ≡ false }
    {
        Rights {
            word: RightsWord::empty(),
        }
    }

    /// The set of all 19 rights (`docs/RULES.md`, "Rights").
    pub fn all() -> Rights
        ensures word { result ≡ all_rights }
        ensures members { (n : ℕ) → has result n ≡ is_right n }
    {
        Rights {
            word: RightsWord::all(),
        }
    }

    /// The set of this right alone (`docs/RULES.md`, "Rights").
    pub fn one(right: Right) -> Rights
        ensures word { result ≡ 2 ^ right }
        ensures members { (n : ℕ) → has result n ≡ (n == right) }
    {
        Rights {
            word: RightsWord::from_bits_retain(1 << right.number()),
        }
    }

    /// Whether this set has every right of `other` (`docs/RULES.md`, "Rights").
    pub fn contains(self, other: Rights) -> bool
        ensures word { result ≡ (bit_and self other == other) }
        ensures members { IsTrue result ↔ HasAll self other }
    {
        self.word.contains(other.word)
    }

    /// Whether this set has this right (`docs/RULES.md`, "Rights").
    pub fn has(self, right: Right) -> bool
        ensures { result ≡ has self right }
    {
        self.contains(Rights::one(right))
    }

    /// The rights that one of the two sets has, or both (`docs/RULES.md`, "Rights").
    pub fn union(self, other: Rights) -> Rights
        ensures word { result ≡ bit_or self other }
        ensures members { (n : ℕ) → has result n ≡ (has self n || has other n) }
    {
        Rights {
            word: self.word.union(other.word),
        }
    }

    /// The rights that both sets have (`docs/RULES.md`, "Rights").
    pub fn intersection(self, other: Rights) -> Rights
        ensures word { result ≡ bit_and self other }
        ensures members { (n : ℕ) → has result n ≡ (has self n && has other n) }
    {
        Rights {
            word: self.word.intersection(other.word),
        }
    }

    /// The rights of this set that `other` lacks (`docs/RULES.md`, "Rights").
    pub fn without(self, other: Rights) -> Rights
        ensures word { result ≡ minus self other }
        ensures members { (n : ℕ) → has result n ≡ (has self n && not (has other n)) }
    {
        Rights {
            word: self.word.difference(other.word),
        }
    }

    /// The right of the lowest number that `need` has and this set lacks (`docs/RULES.md`, "Rights"). None exactly where
    /// it lacks none.
    pub fn first_missing(self, need: Rights) -> Option<Right>
        ensures first { result ≡ first_missing self need }
        ensures none { IsNone result ↔ HasAll self need }
    {
        let missing = need.without(self).bits();
        if missing == 0 {
            None
        } else {
            Some(Right::lowest(missing))
        }
    }
}
