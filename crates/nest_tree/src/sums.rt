// Sums of sizes from the front of the rows.

ghost use Rattle.std.specs.Prelude.{◌≡◌, ◌+◌, ◌<◌, ◌≤◌, ◌*◌, length, vec_capacity};
ghost use Rattle.std.specs.List.{AllByRecursion};
ghost use Rattle.dgn_drawing.specs.Nesting.{bytes_of, itself};
ghost use Rattle.nest_tree.specs.Depths.{IsWordTotal};
ghost use Rattle.nest_tree.specs.Sources.{places_from};

use dgn_drawing::Row;

// The size of a row.
fn size(row: Row) -> u64
    ensures size { result ≡ row.size }
    ensures small { result ≤ 4294967295 }
    ensures word { IsWordTotal row }
{
    u64::from(row.size)
}

// The total of a row is a word. It does nothing.
pub(crate) fn has_word_total(_row: Row)
    ensures { IsWordTotal _row }
{}

// Puts the sums of the rows in place of what the list holds: sum i is how many bytes the first i rows have together. There
// is room for them.
pub(crate) fn set_sums(rows: &[Row], sums: &mut Vec<u64>)
    requires bounded { length rows.now < 4294967295 }
    requires has_room { length rows.now + 1 ≤ vec_capacity sums.old }
    ensures sums { sums.new.items ≡ places_from 0 rows.now }
    ensures light { bytes_of itself rows.now ≤ 4294967295 * length rows.now }
    ensures words { AllByRecursion IsWordTotal rows.now }
    ensures keeps_room { vec_capacity sums.old ≤ vec_capacity sums.new }
{
    sums.clear();
    sums.push_reserved(0);
    let mut sum = 0;
    for i in 0..rows.len() {
        sum += size(rows[i]);
        sums.push_reserved(sum);
    }
}
