//! Forms in one.

ghost use Rattle.std.specs.Prelude.{◌≡◌, ◌≤◌, IfOk};
ghost use Rattle.sporc_delta.specs.declared.limits.TheConstants.{MAX_TEXT_LEN};
ghost use Rattle.sporc_suffix.specs.Compositions.{composed};
ghost use Rattle.sporc_suffix.specs.Forms.{Follow};
ghost use Rattle.sporc_suffix.specs.Runs.{forms_in};

use crate::ready::ReadyForm;
use sporc_base::Memory;
use sporc_delta::Delta;
use sporc_xform::compose;
use std::alloc::Global;

/// Forms that follow one another, over a text of `len` characters, in one delta: that of the first
/// half, and that of the other.
pub(crate) fn in_halves(alloc: Global, len: u64, forms: &[ReadyForm]) -> Result<Delta, Memory>
    requires follow { Follow len (forms_in forms.now) }
    requires limit { len ≤ MAX_TEXT_LEN }
    ensures ok { IfOk result (λ d. d ≡ composed len (forms_in forms.now)) }
{
    match forms {
        [] => {
            let mut all = Delta::new(alloc);
            all.push_keep(len)?;
            Ok(all)
        }
        [form] => {
            let one = form.form().copy()?;
            Ok(one)
        }
        _ => {
            let (front, back) = forms.split_at(forms.len() / 2);
            let front = in_halves(alloc, len, front)?;
            let back = in_halves(alloc, front.out_len(), back)?;
            let whole = compose(alloc, &front, &back)?;
            Ok(whole)
        }
    }
}
