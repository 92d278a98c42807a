// Which interface this is.
ghost use Rattle.std.specs.Prelude.{◌≡◌};
ghost use Rattle.packing.specs.Packed.{interface_version};

// The version of the interface, to be held against the header's EGL_VERSION.
#[unsafe(no_mangle)]
pub extern "C" fn egl_version() -> u32
    ensures { result ≡ interface_version }
{
    7
}
