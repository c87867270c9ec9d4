//! Marks that pass forms.

ghost use Rattle.std.specs.Prelude.{◌≡◌, ◌+◌, ◌≤◌, ◌<◌, length, take, drop, IfOk};
ghost use Rattle.sporc_delta.specs.declared.limits.TheConstants.{MAX_TEXT_LEN};
ghost use Rattle.sporc_delta.specs.Marks.{base_len, inserted_len};
ghost use Rattle.sporc_suffix.specs.Forms.{all_inserted, later_over, reached};

use sporc_base::Memory;
use sporc_delta::Delta;
use sporc_suffix::{Blocks, Steps};
use std::marker::Brand;
use std::sync::ledger::{Blank, Ledger};

/// What marks, stated on the text after the first `from` forms, become behind all forms. There are
/// none after an edit of the last text, whose marks are the form.
pub fn pass_forms(forms: &Blocks, marks: Delta, from: u32) -> Result<Delta, Memory>
    requires in_bounds { from ≤ length forms.now.forms }
    requires base { base_len marks ≡ reached forms.now.base (take from forms.now.forms) }
    requires limit { base_len marks + inserted_len marks + all_inserted (drop from forms.now.forms)
        ≤ MAX_TEXT_LEN }
    ensures ok { IfOk result (λ form. form ≡ later_over marks (drop from forms.now.forms)) }
{
    if from == forms.len() {
        return Ok(marks);
    }
    pass_counted::<Brand>(Blank::new(1), forms, &marks, from)
}

// What marks become behind all forms from a place on, the steps counted on a blank.
fn pass_counted<L: Ledger>(
    blank: Blank,
    forms: &Blocks,
    marks: &Delta,
    from: u32,
) -> Result<Delta, Memory>
    requires name { blank.name ≡ L.name }
    requires parts { blank.parts ≡ L.parts }
    requires positive { 0 < blank.parts }
    requires in_bounds { from ≤ length forms.now.forms }
    requires base { base_len marks.now ≡ reached forms.now.base (take from forms.now.forms) }
    requires limit { base_len marks.now + inserted_len marks.now
        + all_inserted (drop from forms.now.forms) ≤ MAX_TEXT_LEN }
    ensures ok { IfOk result (λ form. form ≡ later_over marks.now (drop from forms.now.forms)) }
{
    let mut steps: Steps<L> = Steps::new(blank);
    forms.later_over(marks, from, &mut steps)
}
