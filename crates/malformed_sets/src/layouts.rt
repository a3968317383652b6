// A floor with two layouts, and what makes them malformed.
use floor::{Floor, Layout};
use malformed_calls::refused;
use trials_tally::{Tally, floors};

// The names A and B as numbers; their first letter stands in the highest byte.
const A: u64 = 4683743612465315840;

const B: u64 = 4755801206503243776;

// Under A every tile of the floor runs, under B all but tile 4.
pub fn sound_floor(f: Floor) -> Floor {
    floors::kept(calls::stop(floors::kept(f, b'A'), 4).floor, b'B')
}

// The calls accept it.
fn accepted(tally: &mut Tally<impl Print>, f: Floor) {
    let a = floors::name(b'A');
    let c = floors::name(b'C');
    tally.trial(
        "the floor with two layouts: accepted",
        (
            calls::keep(f, c).refusal,
            calls::forget(f, a).refusal,
            calls::recall(f, a).refusal,
            calls::recall(f, c).refusal,
            f.layouts[0].set,
            f.layouts[1].set,
        ),
        (0, 0, 0, 45, 63, 47),
    );
}

fn order(tally: &mut Tally<impl Print>, f: &Floor) {
    refused(tally, f, "layouts not by rising name", |g| {
        g.layouts[0] = Layout { name: B, set: 47 };
        g.layouts[1] = Layout { name: A, set: 63 };
    });
    refused(
        tally,
        f,
        "a name twice",
        |g| g.layouts[2] = Layout { name: B, set: 63 },
    );
    refused(
        tally,
        f,
        "a free place before a layout",
        |g| g.layouts[0] = Layout::ZERO,
    );
}

// A third place that has a set of the floor, and no name or a bad one.
fn names(tally: &mut Tally<impl Print>, f: &Floor) {
    for (why, name) in [
        ("a small letter in a name", 6989586621679009792),
        ("a letter after a zero in a name", 4827931368308604928),
        ("a set without a name", 0),
    ] {
        refused(tally, f, why, |g| g.layouts[2] = Layout { name, set: 63 });
    }
}

fn sets(tally: &mut Tally<impl Print>, f: &Floor) {
    for (why, set) in [
        ("a layout with the second hopper stopped", 45),
        ("a layout with a bit for no tile", 111),
        ("a layout of no tile", 0),
    ] {
        refused(tally, f, why, |g| g.layouts[1].set = set);
    }
}

pub fn all(tally: &mut Tally<impl Print>, f: &Floor) {
    accepted(tally, *f);
    order(tally, f);
    names(tally, f);
    sets(tally, f);
}
