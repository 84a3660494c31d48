// Which header the archive was made with.
ghost use Rattle.export.specs.Version.{SisalVersion};

// The number that the header calls SISAL_VERSION. It goes up with every change that a host compiled before it would not survive, and
// with calls that are added.
const VERSION: u32 = 8;

// Answers the version of the archive; refuses nothing.
pub fn sisal_version() -> u32
    ensures { SisalVersion result }
{
    VERSION
}
