// The labels' section.
ghost use Rattle.std.specs.Prelude.{◌≡◌, ◌*◌, ◌<◌, ◌≤◌, length};
ghost use Rattle.std.specs.List.{concat};
ghost use Rattle.base.specs.Below.{any_below};
ghost use Rattle.refusals.specs.Numbers.{answered};
ghost use Rattle.sections.specs.Labels.{label_width, visible, visible_run, all_zero, label_ok, repeats, label_bad, labels_fault};

use crate::{Joints, LABEL_WIDTH};
use refusals::Refusal;

fn is_visible(b: u8) -> bool
    ensures { result ≡ visible b }
{
    b.is_ascii_graphic()
}

// How many visible bytes a label begins with. A chain of the library's already, as `gaps` of crate words: the two share nothing but `position`.
pub fn visible_run(label: &[u8]) -> usize
    ensures value { result ≡ visible_run label.now }
    ensures upper_bound { result ≤ length label.now }
{
    label
        .iter()
        .position(|b| !is_visible(*b))
        .unwrap_or(label.len())
}

fn is_zero(bytes: &[u8]) -> bool
    ensures { result ≡ all_zero bytes.now }
{
    bytes.iter().all(|b| *b == 0)
}

fn label_ok(label: &[u8]) -> bool
    ensures { result ≡ label_ok label.now }
{
    let run = visible_run(label);
    1 <= run && is_zero(&label[run..])
}

// Is label i an earlier one again?
fn repeats_any(labels: &[[u8; LABEL_WIDTH]], i: usize) -> bool
    requires { i < length labels.now }
    ensures { result ≡ any_below i (repeats (concat labels.now) i) }
{
    labels[..i].contains(&labels[i])
}

fn label_bad(labels: &[[u8; LABEL_WIDTH]], i: usize) -> bool
    requires { i < length labels.now }
    ensures { result ≡ label_bad (concat labels.now) i }
{
    !label_ok(&labels[i]) || repeats_any(labels, i)
}

// A chain of the library's already, as `some_bad` of parents and `some_misplaced` of tariff.
fn some_label_bad(labels: &[[u8; LABEL_WIDTH]]) -> bool
    ensures { result ≡ any_below (length labels.now) (label_bad (concat labels.now)) }
{
    (0..labels.len()).any(|i| label_bad(labels, i))
}

// Reads the n labels that the part begins with: their length in bytes.
pub fn read_labels(part: &[u8], n: Joints) -> Result<usize, Refusal>
    ensures { result ≡ answered (labels_fault n.count part.now) (label_width * n.count) }
{
    let size = LABEL_WIDTH * n.count;
    let Some(section) = part.get(..size) else {
        return Err(Refusal::SheetCutShort);
    };
    let (labels, _) = section.as_chunks::<LABEL_WIDTH>();
    if some_label_bad(labels) {
        return Err(Refusal::BadLabel);
    }
    Ok(size)
}
