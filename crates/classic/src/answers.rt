// The answers and the settings as C has them. The fields are those of include/classic.h, in its order.
use descriptor::{Extension, Settings};
use layout::entry_descriptor::PLACES;
use order::Checked;

// A file's descriptor: the refusal, 0 when it is admitted; its byte order; its numbers; and the first record of each
// index area, zero past nex.
#[repr(C)]
#[derive(Clone, Copy)]
pub struct ClassicDescriptor {
    pub refusal: u32,
    pub order: u32,
    pub reclen: u32,
    pub kind: u32,
    pub vind: u32,
    pub lind: u32,
    pub flags: u32,
    pub xnext: u64,
    pub nextrec: u64,
    pub nextword: u32,
    pub lex1: u32,
    pub nex: u32,
    pub gex: u32,
    pub aex: [u64; 16],
}

// An extension: the refusal, its capacity in entries, and its index area's first record and count of
// records.
#[repr(C)]
#[derive(Clone, Copy)]
pub struct ClassicExtension {
    pub refusal: u32,
    pub capacity: u64,
    pub first: u64,
    pub records: u64,
}

impl From<Extension> for ClassicExtension {
    ghost use Rattle.outcome.specs.Outcome.{Answers};
    ghost use Rattle.classic.specs.Answers.{extension_for};

    ghost from_gives = { λ extension answer. Answers (extension_for extension) answer };

    fn from(extension: Extension) -> Self {
        ClassicExtension {
            refusal: extension.refusal,
            capacity: extension.capacity,
            first: extension.first.0,
            records: extension.records,
        }
    }
}

// An opened entry: the refusal, where it starts, its numbers as stored, and its sections, zero past
// nsec.
#[repr(C)]
#[derive(Clone, Copy, Default)]
pub struct ClassicEntry {
    pub refusal: u32,
    pub record: u64,
    pub word: u32,
    pub version: i32,
    pub nsec: u32,
    pub nword: u64,
    pub adata: i64,
    pub ldata: u64,
    pub ids: [i32; PLACES],
    pub lengths: [u64; PLACES],
    pub addresses: [u64; PLACES],
}

// A part of the lent file: the refusal, and its start and length in bytes.
#[repr(C)]
#[derive(Clone, Copy)]
pub struct ClassicPart {
    pub refusal: u32,
    pub start: u64,
    pub length: u64,
}

// An order check: the first entry that fails, and its refusal.
#[repr(C)]
#[derive(Clone, Copy)]
pub struct ClassicChecked {
    pub entry: u64,
    pub refusal: u32,
}

impl From<Checked> for ClassicChecked {
    ghost use Rattle.outcome.specs.Outcome.{Answers};
    ghost use Rattle.classic.specs.Answers.{checked_for};

    ghost from_gives = { λ checked answer. Answers (checked_for checked) answer };

    fn from(checked: Checked) -> Self {
        ClassicChecked {
            entry: checked.entry.0,
            refusal: checked.refusal,
        }
    }
}

// What a caller chooses for a new file.
#[repr(C)]
#[derive(Clone, Copy)]
pub struct ClassicSettings {
    pub order: i32,
    pub reclen: i32,
    pub kind: i32,
    pub vind: i32,
    pub lind: i32,
    pub flags: i32,
    pub lex1: i32,
    pub gex: i32,
}

impl From<ClassicSettings> for Settings {
    ghost use Rattle.outcome.specs.Outcome.{Answers};
    ghost use Rattle.classic.specs.Answers.{settings_from};

    ghost from_gives = { λ settings chosen. Answers (settings_from settings) chosen };

    fn from(settings: ClassicSettings) -> Self {
        Settings {
            order: settings.order,
            reclen: settings.reclen,
            kind: settings.kind,
            vind: settings.vind,
            lind: settings.lind,
            flags: settings.flags,
            lex1: settings.lex1,
            gex: settings.gex,
        }
    }
}
