// The table of depths of stored classes, in fields of a few bits: a depth told from it, and the depths of an accepted package written to it.
ghost use Rattle.std.specs.Prelude.{◌≡◌, ℕ, ◌+◌, ◌*◌, ◌/◌, ◌^◌, ◌≤◌, ◌<◌, length};
ghost use Rattle.files.specs.Say.{Readable};
ghost use Rattle.store.specs.Entries.{part};
ghost use Rattle.depths.specs.Depths.{width_for, depth_width, depth_field, depths_length, told_depth, kept_field, DepthsFit, FileKept};

use fields::wide;

// The bits of a depth in the table, which holds one less: enough for a depth limit.
pub fn width_of(most: usize) -> usize
    ensures { result ≡ width_for most }
{
    if most <= 8 { 3 } else { 4 }
}

// The depth that is told of class c with so many parents, whose record stands at a place of the file that starts at `from`.
pub fn depth_told(
    t: &[u8],
    width: usize,
    depths: &[u8],
    from: usize,
    place: usize,
    c: usize,
    parents: usize,
) -> usize
    requires c_in_bounds { (from ≡ 0 → c < length depths.now) × (0 < from → (from + place < 65536) × ((from + place) / 5 * width / 8 + 1 < length t.now)) }
    requires width_bound { width ≤ 4 }
    ensures { (result ≡ told_depth width depths.now t.now from place c parents) × (result < 256) }
{
    if from == 0 {
        return wide(depths[c]);
    }
    if parents == 0 {
        return 1;
    }
    bits::field_get(t, width, (from + place) / 5) + 1
}

// Writes the depth of a class whose record stands at a place of the store to the table, where it has parents.
fn keep(t: &mut [u8], width: usize, place: usize, parents: usize, depth: u8)
    requires { (0 < parents → (1 ≤ depth) × (depth ≤ 2 ^ width) × (place < 65536) × (place / 5 * width / 8 + 1 < length t.old)) × (width ≤ 4) }
    ensures { (j : ℕ) → depth_field width t.new j ≡ kept_field width t.old place parents depth j }
{
    if parents == 0 {
        return;
    }
    bits::field_put(t, width, place / 5, depth as usize - 1);
}

// Writes the depths of the classes of the file between two places of the store to the table; no field before the file is changed.
pub fn keep_depths(s: &[u8], t: &mut [u8], depths: &[u8], from: usize, to: usize)
    requires from_le_to { (from ≤ to) × (to ≤ length s.now) × (depths_length s.now ≤ length t.old) × (length s.now ≤ 65535) }
    requires readable { Readable (part s.now from to) × DepthsFit (depth_width s.now) (part s.now from to) depths.now }
    ensures file_kept { FileKept (depth_width s.now) (part s.now from to) from depths.now t.new }
    ensures by_index { (j : ℕ) → j < from / 5 → depth_field (depth_width s.now) t.new j ≡ depth_field (depth_width s.now) t.old j }
{
    let g = &s[from..to];
    let limits = store::openings::limits_of(s);
    let width = width_of(limits.depth);
    // Kept: the walk ends with the file, of which the classes are the last part; a loop over their number would not see that.
    let mut n = 0;
    let mut i = files::classes_at(g) + 1;
    while i < g.len() {
        keep(t, width, from + i, wide(g[i + 1]), depths[n]);
        i = files::after_class(g, i);
        n += 1;
    }
}
