//! Octets in decimal and in hexadecimal, and IPv4 addresses, written where they stand.
//!
//! Each function writes behind the first places, up to `at`, and returns where its text ends. It
//! leaves what stands before `at`, and may overwrite some places behind its text.

ghost use Rattle.std.specs.Prelude.{◌≡◌, ◌≤◌, ◌+◌, ◌*◌, ◌++◌, ◌∷◌, [], codes, length};
ghost use Rattle.std.specs.Fmt.{decimal};
ghost use Rattle.hex.specs.Hex.{encode_lower};
ghost use Rattle.bgp_prefix.specs.Text.{address_text};
ghost use Rattle.bgp_prefix.specs.declared.address.Address.TheVariants.{V4};
ghost use Rattle.bgp_text.specs.Room.{Puts};

/// How many places an octet in decimal needs, with a dot behind it.
const OCTET: usize = 4;

/// Each octet in decimal, with a dot behind it, in four places.
static DOTTED: [u8; 1024] =
    *b"0.  1.  2.  3.  4.  5.  6.  7.  8.  9.  10. 11. 12. 13. 14. 15. 16. 17. 18. 19. \
    20. 21. 22. 23. 24. 25. 26. 27. 28. 29. 30. 31. 32. 33. 34. 35. 36. 37. 38. 39. \
    40. 41. 42. 43. 44. 45. 46. 47. 48. 49. 50. 51. 52. 53. 54. 55. 56. 57. 58. 59. \
    60. 61. 62. 63. 64. 65. 66. 67. 68. 69. 70. 71. 72. 73. 74. 75. 76. 77. 78. 79. \
    80. 81. 82. 83. 84. 85. 86. 87. 88. 89. 90. 91. 92. 93. 94. 95. 96. 97. 98. 99. \
    100.101.102.103.104.105.106.107.108.109.110.111.112.113.114.115.116.117.118.119.\
    120.121.122.123.124.125.126.127.128.129.130.131.132.133.134.135.136.137.138.139.\
    140.141.142.143.144.145.146.147.148.149.150.151.152.153.154.155.156.157.158.159.\
    160.161.162.163.164.165.166.167.168.169.170.171.172.173.174.175.176.177.178.179.\
    180.181.182.183.184.185.186.187.188.189.190.191.192.193.194.195.196.197.198.199.\
    200.201.202.203.204.205.206.207.208.209.210.211.212.213.214.215.216.217.218.219.\
    220.221.222.223.224.225.226.227.228.229.230.231.232.233.234.235.236.237.238.239.\
    240.241.242.243.244.245.246.247.248.249.250.251.252.253.254.255.";

/// Each octet in hexadecimal.
static PAIRS: [u8; 512] = *b"000102030405060708090a0b0c0d0e0f101112131415161718191a1b1c1d1e1f\
    202122232425262728292a2b2c2d2e2f303132333435363738393a3b3c3d3e3f\
    404142434445464748494a4b4c4d4e4f505152535455565758595a5b5c5d5e5f\
    606162636465666768696a6b6c6d6e6f707172737475767778797a7b7c7d7e7f\
    808182838485868788898a8b8c8d8e8f909192939495969798999a9b9c9d9e9f\
    a0a1a2a3a4a5a6a7a8a9aaabacadaeafb0b1b2b3b4b5b6b7b8b9babbbcbdbebf\
    c0c1c2c3c4c5c6c7c8c9cacbcccdcecfd0d1d2d3d4d5d6d7d8d9dadbdcdddedf\
    e0e1e2e3e4e5e6e7e8e9eaebecedeeeff0f1f2f3f4f5f6f7f8f9fafbfcfdfeff";

/// How many digits an octet has in decimal.
#[inline(always)]
fn digit_count(octet: u8) -> usize
    ensures digits { result ≡ length (decimal octet) }
    ensures within { result ≤ 3 }
{
    match octet {
        100.. => 3,
        10.. => 2,
        _ => 1,
    }
}

/// Writes an octet in decimal, and a dot behind its text.
#[inline(always)]
pub(crate) fn write_octet(places: &mut [u8], at: usize, octet: u8) -> usize
    requires { at + 4 ≤ length places.old }
    ensures written { Puts places.old at places.new result (decimal octet) }
    ensures dot { Puts places.new result places.new (result + 1) (codes ".") }
    ensures within { result ≤ at + 3 }
{
    let from = OCTET * usize::from(octet);
    places[at..at + OCTET].copy_from_slice(&DOTTED[from..from + OCTET]);
    at + digit_count(octet)
}

/// Writes an IPv4 address in dotted decimal.
#[inline(always)]
pub(crate) fn write_ipv4(places: &mut [u8], at: usize, address: u32) -> usize
    requires { at + 16 ≤ length places.old }
    ensures written { Puts places.old at places.new result (address_text (V4 address)) }
    ensures within { result ≤ at + 15 }
{
    let [first, second, third, fourth] = address.to_be_bytes();
    let at = write_octet(places, at, first) + 1;
    let at = write_octet(places, at, second) + 1;
    let at = write_octet(places, at, third) + 1;
    write_octet(places, at, fourth)
}

/// Writes an IPv4 address in dotted decimal, `/` and a count of bits.
#[inline(always)]
pub(crate) fn write_ipv4_prefix(places: &mut [u8], at: usize, address: u32, bits: u8) -> usize
    requires { at + 20 ≤ length places.old }
    ensures written { Puts places.old at places.new result
        (address_text (V4 address) ++ (codes "/" ++ decimal bits)) }
    ensures within { result ≤ at + 19 }
{
    let end = write_ipv4(places, at, address);
    places[end] = b'/';
    write_octet(places, end + 1, bits)
}

/// Writes two octets in decimal, with a dot between them and a colon behind them.
#[inline(always)]
pub(crate) fn write_head(places: &mut [u8], at: usize, first: u8, second: u8) -> usize
    requires { at + 8 ≤ length places.old }
    ensures written { Puts places.old at places.new result
        (decimal first ++ (codes "." ++ (decimal second ++ codes ":"))) }
    ensures within { result ≤ at + 8 }
{
    let behind = write_octet(places, at, first) + 1;
    let end = write_octet(places, behind, second);
    places[end] = b':';
    end + 1
}

/// The two digits of an octet in hexadecimal.
#[inline(always)]
fn pair_of(octet: u8) -> (u8, u8)
    ensures { result.0 ∷ result.1 ∷ [] ≡ encode_lower (octet ∷ []) }
{
    let from = 2 * usize::from(octet);
    (PAIRS[from], PAIRS[from + 1])
}

/// Writes octets in hexadecimal.
#[inline(always)]
pub(crate) fn write_hex(places: &mut [u8], at: usize, octets: &[u8]) -> usize
    requires { at + 2 * length octets.now ≤ length places.old }
    ensures written { Puts places.old at places.new result (encode_lower octets.now) }
    ensures end { result ≡ at + 2 * length octets.now }
{
    let mut end = at;
    for octet in octets {
        let (high, low) = pair_of(*octet);
        places[end] = high;
        places[end + 1] = low;
        end += 2;
    }
    end
}
