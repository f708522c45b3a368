ghost use Rattle.std.specs.Prelude.{◌≡◌, ◌≢◌, ◌≤◌, length};
ghost use Rattle.db_model.specs.Extent.{bit_value};
ghost use Rattle.db_model.specs.Numbers.{big_endian, to_bytes, bits_by};

use arrayvec::ArrayVec;
use db_model::MOST_BIT_SIZE;

/// The value of a bit field: the number that its bytes are, masked, and shifted right until the mask's lowest
/// 1 stands at bit 0, in as many bytes as were read. The highest byte comes first. Takes no memory.
pub fn bit_value(bytes: &[u8], mask: u32) -> ArrayVec<u8, 4>
    requires some { 1 ≤ length bytes.now }
    requires most { length bytes.now ≤ MOST_BIT_SIZE }
    requires mask { mask ≢ 0 }
    ensures { result.items ≡ bit_value bytes.now mask }
{
    last_bytes(masked(big_endian(bytes), mask), bytes.len())
}

fn big_endian(bytes: &[u8]) -> u32
    requires { length bytes.now ≤ 4 }
    ensures { result ≡ big_endian bytes.now }
{
    let mut number = 0;
    for byte in bytes {
        number = number * 256 + u32::from(*byte);
    }
    number
}

fn masked(number: u32, mask: u32) -> u32
    requires { mask ≢ 0 }
    ensures { result ≡ bits_by mask number }
{
    let places = mask.trailing_zeros();
    (number & mask) >> places
}

fn last_bytes(number: u32, count: usize) -> ArrayVec<u8, 4>
    requires { count ≤ 4 }
    ensures { result.items ≡ to_bytes count number }
{
    let all = number.to_be_bytes();
    let mut value = ArrayVec::new();
    // It fits, since `count` is at most 4.
    let _ = value.try_extend_from_slice(&all[4 - count..]);
    value
}
