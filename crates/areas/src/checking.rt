// The checker of a plan. It shares no code with the planner.
ghost use Rattle.std.specs.Prelude.{◌≡◌, ◌*◌, ◌≤◌, length};
ghost use Rattle.areas.specs.Site.{feet, tenths, total, is_area};
ghost use Rattle.areas.specs.Check.{keeps};

// What an area's limits are asked of: the feet and the tenths of an ohm of all its transmitters. The planner counts both too, in a struct of its own,
// since the two are to share no code.
#[derive(Clone, Copy)]
struct Sums {
    feet: u32,
    tenths: u32,
}

// The sums of at most 30 transmitters.
fn totals(part: &[u32]) -> Sums
    requires { length part.now ≤ 30 }
    ensures { (result.feet ≡ total feet part.now) × (result.tenths ≡ total tenths part.now) }
{
    let mut sums = Sums { feet: 0, tenths: 0 };
    for t in part {
        sums.feet += *t / 65536;
        sums.tenths += *t % 65536;
    }
    sums
}

fn is_area(part: &[u32]) -> bool
    ensures { result ≡ is_area part.now }
{
    if part.is_empty() || 30 < part.len() {
        return false;
    }
    let sums = totals(part);
    sums.feet <= 10000 && sums.tenths <= 500
}

// Every run of the plan is an area, and they end where the site ends.
pub(crate) fn is_kept(site: &[u32], plan: &[u8]) -> bool
    ensures { result ≡ keeps site.now plan.now }
{
    let mut left = site;
    for n in plan {
        let Some((run, others)) = left.split_at_checked(usize::from(*n)) else {
            return false;
        };
        if !is_area(run) {
            return false;
        }
        left = others;
    }
    left.is_empty()
}
