ghost use Rattle.std.specs.Prelude.{◌≡◌, ◌<◌};
ghost use Rattle.db_model.specs.Extent.{padding};

/// How many bytes lie between a distance and its next multiple of the alignment.
pub fn padding(align: u32, distance: u32) -> u32
    requires { 0 < align }
    ensures { result ≡ padding align distance }
{
    (align - distance % align) % align
}
