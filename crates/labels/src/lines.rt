// Labels as text: a label as shown, a line of one, a line of two.
ghost use Rattle.writing.specs.Written.{HasRoom, Puts};
ghost use Rattle.labels.specs.Lines.{label_text, label_line, pair_line};

use sections::visible_run;
use writing::Writer;

pub fn write_label(label: &[u8], out: &mut Writer<'_>)
    requires { HasRoom out.old (label_text label.now) }
    ensures { Puts out.old (label_text label.now) out.new }
{
    let shown = visible_run(label);
    out.write(&label[..shown]);
}

pub fn write_label_line(label: &[u8], out: &mut Writer<'_>)
    requires { HasRoom out.old (label_line label.now) }
    ensures { Puts out.old (label_line label.now) out.new }
{
    write_label(label, out);
    out.put(b'\n');
}

pub fn write_pair_line(first: &[u8], second: &[u8], out: &mut Writer<'_>)
    requires { HasRoom out.old (pair_line first.now second.now) }
    ensures { Puts out.old (pair_line first.now second.now) out.new }
{
    write_label(first, out);
    out.put(b' ');
    write_label_line(second, out);
}
