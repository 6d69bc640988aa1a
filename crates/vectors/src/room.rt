// Room for many values.
ghost use Rattle.std.specs.Prelude.{◌≡◌, length};

// So many equal values. They come from a call, so that no proof writes out as many.
pub fn filled<T: Copy, const N: usize>(value: T) -> [T; N]
    ensures { length result ≡ N }
{
    [value; N]
}
