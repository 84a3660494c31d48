// Which transmitters of a site share an area.
ghost use Rattle.areas.specs.Check.{ChecksAreas};
ghost use Rattle.areas.specs.Plan.{PlansAreas};

use areas::Plan;

// Proposes areas for a site.
#[unsafe(no_mangle)]
pub extern "C" fn sisal_plan_areas(site: &[u32]) -> Plan
    ensures { PlansAreas site.now result }
{
    areas::sisal_plan_areas(site)
}

// Whether a plan is accepted.
#[unsafe(no_mangle)]
pub extern "C" fn sisal_check_areas(site: &[u32], plan: &[u8]) -> u8
    ensures { ChecksAreas site.now plan.now result }
{
    areas::sisal_check_areas(site, plan)
}
