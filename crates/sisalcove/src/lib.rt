// The archive for C: each call that `include/sisalcove.h` declares. A crate for other crates exports nothing, so every call stands here once more, with the
// name, the parameters and the clauses that it has below, and only calls it. What a call does, and what it refuses, is said there.
#![tactic(auto)]

mod boards;
mod frames;
mod items;
mod listings;
mod pollings;
mod rounds;
mod samples;
mod sheets;
mod sites;
mod summaries;

ghost use Rattle.export.specs.Version.{SisalVersion};

// The version of the archive.
#[unsafe(no_mangle)]
pub extern "C" fn sisal_version() -> u32
    ensures { SisalVersion result }
{
    export::version::sisal_version()
}
