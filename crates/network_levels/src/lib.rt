#![tactic(auto)]

ghost use Rattle.std.specs.Prelude.{◌≡◌, ◌+◌, ◌*◌, ◌≤◌, ◌<◌, length, get_or, pos};
ghost use Rattle.lists.specs.Values.{list_of};
ghost use Rattle.network.specs.Table.{max_boundaries, entry};
ghost use Rattle.network_levels.specs.Levels.{lower};
ghost use Rattle.network_levels.specs.Finder.{StepsFit, LevelsUpTo, Weighed};

// The level below prev, into the row. The row holds prev at first, and each boundary's steps lower it.
fn make_level(d: &[i16], w: usize, prev: &[i16], row: &mut [i16])
    requires { (w ≤ max_boundaries) × (w * w ≤ length d.now) × (length prev.now ≡ w) × (length row.old ≡ w) × StepsFit w d.now prev.now }
    ensures { row.new ≡ list_of w (lower w (entry w d.now) (λ v. get_or prev.now v (pos 0))) }
{
    row.copy_from_slice(prev);
    for (u, reached) in prev.iter().enumerate() {
        let from = u * w;
        network::relax_row(row, &d[from..from + w], *reached);
    }
}

// Level k + 1, into its row behind that of level k.
fn add_level(d: &[i16], w: usize, k: usize, levels: &mut [i16])
    requires { Weighed w d.now × (w * w + w ≤ length levels.old) × (k < w) × LevelsUpTo w d.now levels.old k }
    ensures { LevelsUpTo w d.now levels.new (k + 1) }
{
    let from = k * w;
    let (made, rest) = levels.split_at_mut(from + w);
    make_level(d, w, &made[from..], &mut rest[..w]);
}

// The levels 0 to w, row by row. Level 0 stands there already.
pub fn fill_levels(d: &[i16], w: usize, levels: &mut [i16])
    requires { Weighed w d.now × (w * w + w ≤ length levels.old) × LevelsUpTo w d.now levels.old 0 }
    ensures { LevelsUpTo w d.now levels.new w }
{
    // stays: levels are counted, and no places of one list.
    for k in 0..w {
        add_level(d, w, k, levels);
    }
}
