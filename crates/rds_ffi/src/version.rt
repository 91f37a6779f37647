//! The version of the library, and `RDSRT_ABI`, the number of its interface.
ghost use Rattle.std.specs.Prelude.{◌≡◌};
ghost use Rattle.rds_ffi.specs.Codes.{RDSRT_ABI};

use crate::codes;

/// The number of the interface of a library, and the version of the project.
#[repr(C)]
#[derive(Clone, Copy)]
pub struct RdsrtVersion {
    pub abi: u32,
    pub major: u32,
    pub minor: u32,
    pub patch: u32,
}

/// Returns the number of this interface and the version.
#[unsafe(no_mangle)]
pub extern "C" fn rdsrt_version() -> RdsrtVersion
    ensures { result ≡ record { abi = RDSRT_ABI; major = 0; minor = 2; patch = 0 } }
{
    RdsrtVersion {
        abi: codes::ABI,
        major: 0,
        minor: 2,
        patch: 0,
    }
}
