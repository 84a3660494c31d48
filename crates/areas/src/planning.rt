// The planner: each area takes as many transmitters as it may.
ghost use Rattle.std.specs.Prelude.{◌≡◌, ◌+◌, ◌≤◌, true, false, eqb, length, Some, None, MatchOption};
ghost use Rattle.frame.specs.Pick.{pick};
ghost use Rattle.areas.specs.Site.{feet, tenths};
ghost use Rattle.areas.specs.Plan.{joins, first_area, greedy, rest, plan_told};

use crate::Plan;

// An area that transmitters join one after another: how many it has, and their feet and tenths of an ohm.
#[derive(Clone, Copy)]
struct Area {
    many: usize,
    feet: u32,
    tenths: u32,
    ghost within_limits: { (many ≤ 30) × (feet ≤ 10000) × (tenths ≤ 500) },
}

impl Area {
    // The area with one transmitter more, or none where that passes a limit.
    fn joined(self, t: u32) -> Option<Area>
        ensures { MatchOption result (joins self.many self.feet self.tenths t ≡ false) (λ a. (joins self.many self.feet self.tenths t ≡ true) × (a.many ≡ self.many + 1) × (a.feet ≡ self.feet + feet t) × (a.tenths ≡ self.tenths + tenths t)) }
    {
        let many = self.many + 1;
        let feet = self.feet + t / 65536;
        let tenths = self.tenths + t % 65536;
        if many <= 30 && feet <= 10000 && tenths <= 500 {
            Some(Area { many, feet, tenths })
        } else {
            None
        }
    }
}

// How many transmitters the first area of a site takes.
fn first_area(site: &[u32]) -> usize
    ensures { (result ≡ first_area site.now) × (result ≤ length site.now) × (result ≤ 30) }
{
    let mut area = Area {
        many: 0,
        feet: 0,
        tenths: 0,
    };
    for t in site {
        let Some(larger) = area.joined(*t) else {
            return area.many;
        };
        area = larger;
    }
    area.many
}

// Takes area after area, up to 8, until one takes nothing: then nothing is left, or the next transmitter fits no area. No plan where any are left over.
pub(crate) fn propose(site: &[u32]) -> Option<Plan>
    ensures { result ≡ pick (eqb (length (rest 8 site.now)) 0) (Some (plan_told (greedy 8 site.now))) None }
{
    let mut sizes = [0; 8];
    let mut areas = 0;
    let mut left = site;
    for size in &mut sizes {
        let n = first_area(left);
        if n == 0 {
            break;
        }
        *size = n as u8;
        areas += 1;
        left = &left[n..];
    }
    if left.is_empty() {
        Some(Plan {
            sizes,
            areas,
            number: 0,
        })
    } else {
        None
    }
}
