//! Words of 32 bits, with the names of the rights in them.

ghost use Rattle.std.specs.Prelude.{⊤};
ghost use Rattle.hk_rights.specs.Rights.{word_table};

use bitflags::{Flag, Flags, bitflag_items};

/// Any word of 32 bits. The bits of the 19 rights have names (`docs/RULES.md`, "Rights"); other bits may be set too.
#[derive(Clone, Copy, PartialEq, Eq, Debug)]
pub struct RightsWord(pub(crate) u32);

bitflag_items! {
    impl RightsWord: u32 {
        /// To read words and their number.
        const GETDATA = 0x1;
        /// To replace a word.
        const PUTDATA = 0x2;
        /// To add a word.
        const ADDDATA = 0x4;
        /// To go on to an entry of the list.
        const LOAD = 0x8;
        /// To replace an entry.
        const STORE = 0x10;
        /// To add an entry.
        const APPEND = 0x20;
        /// To empty an entry.
        const KILL = 0x40;
        /// To copy the object.
        const COPY = 0x80;
        /// Needed besides, wherever the object is changed.
        const MODIFY = 0x100;
        /// Needed to hand the capability on, by a store or a return, and to make or take templates through it; what is
        /// obtained through a capability without it has no ENV either.
        const ENV = 0x200;
        /// What is obtained through a capability without it loses MODIFY and UNCONF, and a call through a procedure's
        /// capability without it is confined.
        const UNCONF = 0x400;
        /// Auxiliary right 0.
        const A0 = 0x10000;
        /// Auxiliary right 1.
        const A1 = 0x20000;
        /// Auxiliary right 2.
        const A2 = 0x40000;
        /// Auxiliary right 3.
        const A3 = 0x80000;
        /// Auxiliary right 4.
        const A4 = 0x100000;
        /// Auxiliary right 5.
        const A5 = 0x200000;
        /// Auxiliary right 6.
        const A6 = 0x400000;
        /// Auxiliary right 7.
        const A7 = 0x800000;
    }
}

impl Flags for RightsWord {
    type Bits = u32;

    ghost exact = { ⊤ };

    ghost table = { word_table };

    ghost set_of = { λ word. word.0 };

    fn flags<'a>() -> &'a [Flag<RightsWord>] {
        RightsWord::FLAGS
    }

    fn bits(&self) -> u32 {
        self.0
    }

    fn from_bits_retain(bits: u32) -> RightsWord {
        RightsWord(bits)
    }
}
