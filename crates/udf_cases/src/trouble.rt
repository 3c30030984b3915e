//! The trouble of a run, as words: `fail:4` (the fourth call of the bench fails), `put:1` (the first put of a line fails), and
//! `stop:image:1:256:90` (the run is stopped inside the first write of the image, after 256 bytes of it, and what was not durable
//! holds the byte 90 afterwards; `side` for the side file).

use crate::words::{byte, number, part};
use udf_outside::{Role, Stop};

/// What fails in a run, where it stops, and the byte with which a restart fills what was not durable.
#[derive(Clone, Copy)]
pub(crate) struct Trouble {
    pub fail: Option<u64>,
    pub put: Option<u64>,
    pub stop: Option<Stop>,
    pub fill: u8,
}

/// The byte with which a restart fills, where none is named.
const FILL: u8 = 0x5A;

impl Trouble {
    /// None.
    pub(crate) const NONE: Trouble = Trouble {
        fail: None,
        put: None,
        stop: None,
        fill: FILL,
    };

    /// A call fails.
    pub(crate) fn failing(call: u64) -> Trouble {
        let mut trouble = Trouble::NONE;
        trouble.fail = Some(call);
        trouble
    }

    /// A put fails.
    pub(crate) fn failing_put(put: u64) -> Trouble {
        let mut trouble = Trouble::NONE;
        trouble.put = Some(put);
        trouble
    }

    /// A call is cut short.
    pub(crate) fn stopping(call: u64, bytes: u64, fill: u8) -> Trouble {
        let mut trouble = Trouble::NONE;
        trouble.stop = Some(Stop { call, bytes });
        trouble.fill = fill;
        trouble
    }
}

/// The failure that a word names, or none.
pub(crate) fn failure_of(word: &str) -> Trouble {
    match part(word, ':', 0) {
        "fail" => Trouble::failing(number(word, 1)),
        "put" => Trouble::failing_put(number(word, 1)),
        _ => Trouble::NONE,
    }
}

/// A write of a role at which a run stops.
#[derive(Clone, Copy)]
pub(crate) struct Cut {
    pub role: Role,
    pub write: u64,
    pub bytes: u64,
    pub fill: u8,
}

/// The cut that a word names.
pub(crate) fn cut_of(word: &str) -> Cut {
    let role = match part(word, ':', 1) {
        "side" => Role::Side,
        _ => Role::Image,
    };
    Cut {
        role,
        write: number(word, 2),
        bytes: number(word, 3),
        fill: byte(word, 4),
    }
}
