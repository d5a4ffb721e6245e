// The sheet of joints, as it is written.
ghost use Rattle.std.specs.Prelude.{◌≡◌, ◌≤◌, length};
ghost use Rattle.writing.specs.Written.{HasRoom, Puts};
ghost use Rattle.names.specs.Kept.{kept_names, kept_parents};
ghost use Rattle.hierarchy.specs.Gathered.{gathered};
ghost use Rattle.bvh.specs.Written.{label_for, labels_for, sheet_for};
ghost use Rattle.bvh.specs.Places.{written_size};

use names::NamedJoints;
use sections::LABEL_WIDTH;
use writing::Writer;

// The bytes of a sheet of joints without entries: three counts, a label and a parent for each joint.
pub fn size_of(joints: &NamedJoints<'_>) -> usize
    ensures { result ≡ written_size (length joints.now.list.items) }
{
    4 + (LABEL_WIDTH + 1) * joints.len()
}

// The label of a name.
fn write_label(name: &[u8], out: &mut Writer<'_>)
    requires { (length name.now ≤ 16) × HasRoom out.old (label_for name.now) }
    ensures { Puts out.old (label_for name.now) out.new }
{
    out.write(name);
    out.zeros(LABEL_WIDTH - name.len());
}

fn write_labels(joints: &NamedJoints<'_>, out: &mut Writer<'_>)
    requires { HasRoom out.old (labels_for (kept_names joints.now.list.items)) }
    ensures { Puts out.old (labels_for (kept_names joints.now.list.items)) out.new }
{
    for joint in joints.as_slice() {
        write_label(joint.name, out);
    }
}

fn write_parents(joints: &NamedJoints<'_>, out: &mut Writer<'_>)
    requires { HasRoom out.old (kept_parents joints.now.list.items) }
    ensures { Puts out.old (kept_parents joints.now.list.items) out.new }
{
    for joint in joints.as_slice() {
        out.put(joint.parent);
    }
}

// The count of joints and their labels; no entries; the count of parents and these. The count narrows by `as`: it is 128 at most, and `try_from`
// would have an error that cannot be.
pub fn write_sheet(joints: &NamedJoints<'_>, out: &mut Writer<'_>)
    requires { HasRoom out.old (sheet_for (gathered joints.now.list.items)) }
    ensures { Puts out.old (sheet_for (gathered joints.now.list.items)) out.new }
{
    let count = joints.len() as u8;
    out.put(count);
    write_labels(joints, out);
    out.write(&[0, 0, count]);
    write_parents(joints, out);
}
