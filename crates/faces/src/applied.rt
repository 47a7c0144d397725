// An application as C sees it, and the mode that C gives.
ghost use Rattle.std.specs.Prelude.{◌≡◌};
ghost use Rattle.faces.specs.Applied.{applied_face};

use crate::checked::address_or;
use conversion::logic::{Answer, Applied};

// `kind`: 0 refused, 1 number, 2 text, 3 unchanged, 4 unknown. `malformed`: 1 where a malformed table was consulted, else 0. Fields that do not
// apply are 0.
#[repr(C)]
#[derive(Clone, Copy, Default)]
pub struct MdfApplied {
    pub refusal: u32,
    pub kind: u32,
    pub number: f64,
    pub length: u64,
    pub address: u64,
    pub checked: u32,
    pub applied: u32,
    pub malformed: u32,
}

impl From<Applied> for MdfApplied {
    ghost from_gives = { λ a m. m ≡ applied_face a };

    fn from(a: Applied) -> MdfApplied {
        // The call's N, M and flag, beside what the answer decides.
        let call = MdfApplied {
            checked: a.checked,
            applied: a.applied,
            malformed: u32::from(a.malformed),
            ..MdfApplied::default()
        };
        match a.answer {
            Answer::Number(number) => MdfApplied {
                kind: 1,
                number,
                ..call
            },
            Answer::Text(length) => MdfApplied {
                kind: 2,
                length: length as u64,
                ..call
            },
            Answer::Unchanged => MdfApplied { kind: 3, ..call },
            Answer::Unknown => MdfApplied { kind: 4, ..call },
            Answer::Refused(refusal) => MdfApplied {
                refusal: u32::from(refusal.number()),
                address: address_or(refusal.address()),
                ..call
            },
        }
    }
}

// `width`: how many bits the signal has. `edition`: 410 or 420, the edition of MDF.
#[repr(C)]
#[derive(Clone, Copy)]
pub struct MdfMode {
    pub width: u32,
    pub edition: u32,
}
