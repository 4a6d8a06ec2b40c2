// The summary: a row for each set that accepted lines.
ghost use Rattle.std.specs.Prelude.{◌<◌, ◌≤◌, ◌+◌, length};
ghost use Rattle.text.specs.Writing.{Wrote};
ghost use Rattle.hub_rules.specs.Whole.{last_line, row_for};
ghost use Rattle.hub_rules.specs.Stream.{rows_of};
ghost use Rattle.hub_run.specs.Held.{Below};

use text::Writer;

// A row, or nothing where the count is 0.
fn put_row(set: u32, count: u32, w: &mut Writer)
    requires { (set < 100000) × (count < 100000) × (w.old.at + 12 ≤ length w.old.out.now) }
    ensures most { w.new.at ≤ w.old.at + 12 }
    ensures wrote { Wrote (row_for set count) w.old w.new }
{
    if count == 0 {
        return;
    }
    w.decimal(set);
    w.number(count);
    w.byte(b'\n');
}

// The rows of sets 1 to 10.
pub(crate) fn put_rows(counts: &[u32; 10], w: &mut Writer)
    requires { (w.old.at + 120 ≤ length w.old.out.now) × Below counts.now (last_line + 1) }
    ensures most { w.new.at ≤ w.old.at + 120 }
    ensures wrote { Wrote (rows_of 1 counts.now) w.old w.new }
{
    for (i, count) in counts.iter().enumerate() {
        put_row(i as u32 + 1, *count, w);
    }
}
