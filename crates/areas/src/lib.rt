// Which transmitters share an area (document 02, request 14): a planner, and a checker that shares no code with it. Both calls are exported as
// they stand.
#![tactic(auto)]

mod checking;
mod planning;

ghost use Rattle.std.specs.Prelude.{◌≡◌};
ghost use Rattle.areas.specs.Check.{ChecksAreas};
ghost use Rattle.areas.specs.Plan.{PlansAreas, refused};

// A proposed plan: the number of transmitters of each area, 0 after the last; beside a refusal all else is 0.
#[repr(C)]
#[derive(Clone, Copy)]
pub struct Plan {
    pub sizes: [u8; 8],
    pub areas: u8,
    pub number: u8,
}

fn refusal(number: u8) -> Plan
    ensures { result ≡ refused number }
{
    Plan {
        sizes: [0; 8],
        areas: 0,
        number,
    }
}

// Proposes areas for a site, each transmitter as feet times 65,536 and tenths of an ohm. Refuses 34, 35.
pub fn sisal_plan_areas(site: &[u32]) -> Plan
    ensures { PlansAreas site.now result }
{
    if 120 < site.len() {
        return refusal(34);
    }
    planning::propose(site).unwrap_or(refusal(35))
}

// Whether a plan is accepted, made here or drawn by a fitter: 0; or 34, 36.
pub fn sisal_check_areas(site: &[u32], plan: &[u8]) -> u8
    ensures { ChecksAreas site.now plan.now result }
{
    if 120 < site.len() {
        return 34;
    }
    if plan.len() <= 8 && checking::is_kept(site, plan) {
        0
    } else {
        36
    }
}
