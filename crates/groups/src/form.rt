// The form of reports and plans: the marks of their records, and the bytes of a set.
ghost use Rattle.std.specs.Prelude.{◌≡◌};
ghost use Rattle.spans.specs.Encoding.{form_of};
ghost use Rattle.groups.specs.Appending.{form_in};

use sets::WORD_BITS;

// The marks of a report, of its groups, of a plan and of its parts, and the bytes of a set.
#[derive(Clone, Copy)]
pub(crate) struct Form {
    pub(crate) report: [u8; 2],
    pub(crate) group: [u8; 2],
    pub(crate) plan: [u8; 2],
    pub(crate) part: [u8; 2],
    pub(crate) width: usize,
}

// The form for so many badges.
pub(crate) fn form_of(badges: usize) -> Form
    ensures { form_in result ≡ form_of badges }
{
    if badges <= WORD_BITS {
        return Form {
            report: [b'R', b'H'],
            group: [b'G', b'R'],
            plan: [b'P', b'H'],
            part: [b'P', b'T'],
            width: 8,
        };
    }
    Form {
        report: [b'R', b'W'],
        group: [b'G', b'W'],
        plan: [b'P', b'W'],
        part: [b'Q', b'W'],
        width: 16,
    }
}

// The bytes of a set in reports and plans of so many badges.
pub fn set_bytes(badges: usize) -> usize
    ensures { result ≡ (form_of badges).set_bytes }
{
    let form = form_of(badges);
    form.width
}
