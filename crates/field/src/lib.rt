// The field of 256 elements: bytes, addition by exclusive or, multiplication modulo the polynomial 285.
#![tactic(auto)]

ghost use Rattle.std.specs.Prelude.{◌≡◌, ℕ, ◌<◌, ◌≤◌, ◌*◌, length, get_or};
ghost use Rattle.field.specs.Field.{add, double, mul, power};

// The powers of the generator: each entry is twice the one before.
const POWERS: [u8; 255] = [
    Element::ONE.0,
    Element::GENERATOR.0,
    4,
    8,
    16,
    32,
    64,
    128,
    29,
    58,
    116,
    232,
    205,
    135,
    19,
    38,
    76,
    152,
    45,
    90,
    180,
    117,
    234,
    201,
    143,
    3,
    6,
    12,
    24,
    48,
    96,
    192,
    157,
    39,
    78,
    156,
    37,
    74,
    148,
    53,
    106,
    212,
    181,
    119,
    238,
    193,
    159,
    35,
    70,
    140,
    5,
    10,
    20,
    40,
    80,
    160,
    93,
    186,
    105,
    210,
    185,
    111,
    222,
    161,
    95,
    190,
    97,
    194,
    153,
    47,
    94,
    188,
    101,
    202,
    137,
    15,
    30,
    60,
    120,
    240,
    253,
    231,
    211,
    187,
    107,
    214,
    177,
    127,
    254,
    225,
    223,
    163,
    91,
    182,
    113,
    226,
    217,
    175,
    67,
    134,
    17,
    34,
    68,
    136,
    13,
    26,
    52,
    104,
    208,
    189,
    103,
    206,
    129,
    31,
    62,
    124,
    248,
    237,
    199,
    147,
    59,
    118,
    236,
    197,
    151,
    51,
    102,
    204,
    133,
    23,
    46,
    92,
    184,
    109,
    218,
    169,
    79,
    158,
    33,
    66,
    132,
    21,
    42,
    84,
    168,
    77,
    154,
    41,
    82,
    164,
    85,
    170,
    73,
    146,
    57,
    114,
    228,
    213,
    183,
    115,
    230,
    209,
    191,
    99,
    198,
    145,
    63,
    126,
    252,
    229,
    215,
    179,
    123,
    246,
    241,
    255,
    227,
    219,
    171,
    75,
    150,
    49,
    98,
    196,
    149,
    55,
    110,
    220,
    165,
    87,
    174,
    65,
    130,
    25,
    50,
    100,
    200,
    141,
    7,
    14,
    28,
    56,
    112,
    224,
    221,
    167,
    83,
    166,
    81,
    162,
    89,
    178,
    121,
    242,
    249,
    239,
    195,
    155,
    43,
    86,
    172,
    69,
    138,
    9,
    18,
    36,
    72,
    144,
    61,
    122,
    244,
    245,
    247,
    243,
    251,
    235,
    203,
    139,
    11,
    22,
    44,
    88,
    176,
    125,
    250,
    233,
    207,
    131,
    27,
    54,
    108,
    216,
    173,
    71,
    142,
];

// The logarithms, for which POWERS[LOGS[a]] is a. 0 has none, and its entry is not used.
const LOGS: [u8; 256] = [
    0, 0, 1, 25, 2, 50, 26, 198, 3, 223, 51, 238, 27, 104, 199, 75, 4, 100, 224, 14, 52, 141, 239,
    129, 28, 193, 105, 248, 200, 8, 76, 113, 5, 138, 101, 47, 225, 36, 15, 33, 53, 147, 142, 218,
    240, 18, 130, 69, 29, 181, 194, 125, 106, 39, 249, 185, 201, 154, 9, 120, 77, 228, 114, 166, 6,
    191, 139, 98, 102, 221, 48, 253, 226, 152, 37, 179, 16, 145, 34, 136, 54, 208, 148, 206, 143,
    150, 219, 189, 241, 210, 19, 92, 131, 56, 70, 64, 30, 66, 182, 163, 195, 72, 126, 110, 107, 58,
    40, 84, 250, 133, 186, 61, 202, 94, 155, 159, 10, 21, 121, 43, 78, 212, 229, 172, 115, 243,
    167, 87, 7, 112, 192, 247, 140, 128, 99, 13, 103, 74, 222, 237, 49, 197, 254, 24, 227, 165,
    153, 119, 38, 184, 180, 124, 17, 68, 146, 217, 35, 32, 137, 46, 55, 63, 209, 91, 149, 188, 207,
    205, 144, 135, 151, 178, 220, 252, 190, 97, 242, 86, 211, 171, 20, 42, 93, 158, 132, 60, 57,
    83, 71, 109, 65, 162, 31, 45, 67, 216, 183, 123, 164, 118, 196, 23, 73, 236, 127, 12, 111, 246,
    108, 161, 59, 82, 41, 157, 85, 170, 251, 96, 134, 177, 187, 204, 62, 90, 203, 89, 95, 176, 156,
    169, 160, 81, 11, 245, 22, 235, 122, 117, 44, 215, 79, 174, 213, 233, 230, 231, 173, 232, 116,
    214, 244, 234, 168, 80, 88, 175,
];

// An element of the field, which is a byte.
#[derive(Clone, Copy)]
pub struct Element(pub u8);

impl Element {
    // Where a sum begins, where a product begins, and the element whose powers are all but ZERO.
    pub const ZERO: Element = Element(0);

    pub const ONE: Element = Element(1);

    pub const GENERATOR: Element = Element(2);

    pub fn add(self, other: Element) -> Element
        ensures { result.0 ≡ add self.0 other.0 }
    {
        Element(self.0 ^ other.0)
    }

    // With no table and no branch, so that a loop over it becomes vector code.
    pub fn twice(self) -> Element
        ensures { result.0 ≡ double self.0 }
    {
        let x = self.0;
        Element(x % 128 * 2 ^ x / 128 * 29)
    }

    // Twice this element, and bit · x added.
    fn bit_step(self, bit: u8, x: Element) -> Element
        requires { bit < 2 }
        ensures { result.0 ≡ add (bit * x.0) (double self.0) }
    {
        Element(bit * x.0).add(self.twice())
    }

    // The product by the bits of this element, from the highest down: it too has no table and no branch.
    // Stays: written out, since a loop over it becomes vector code only where it has no loop of its own.
    pub fn product(self, x: Element) -> Element
        ensures { result.0 ≡ mul self.0 x.0 }
    {
        let w = self.0;
        let w1 = w / 2;
        let w2 = w1 / 2;
        let w3 = w2 / 2;
        let w4 = w3 / 2;
        let w5 = w4 / 2;
        let w6 = w5 / 2;
        let w7 = w6 / 2;
        let t = Element::ZERO.bit_step(w7 % 2, x);
        let t = t.bit_step(w6 % 2, x);
        let t = t.bit_step(w5 % 2, x);
        let t = t.bit_step(w4 % 2, x);
        let t = t.bit_step(w3 % 2, x);
        let t = t.bit_step(w2 % 2, x);
        let t = t.bit_step(w1 % 2, x);
        t.bit_step(w % 2, x)
    }

    // This element, and x y added.
    pub fn fold(self, x: Element, y: Element) -> Element
        ensures { result.0 ≡ add self.0 (mul x.0 y.0) }
    {
        self.add(x.product(y))
    }

    // The inverse as the 254th power: no table and no branch, and two values at a time, so that these stay in registers. ZERO has none, and gives
    // ZERO.
    pub fn inverse(self) -> Element
        ensures { 0 < self.0 → mul self.0 result.0 ≡ 1 }
    {
        let a3 = self.product(self).product(self);
        let a7 = a3.product(a3).product(self);
        let a15 = a7.product(a7).product(self);
        let a31 = a15.product(a15).product(self);
        let a63 = a31.product(a31).product(self);
        let a127 = a63.product(a63).product(self);
        a127.product(a127)
    }

    // The generator's power, from the table. (A table is laid out on the stack wherever it is indexed, so it is indexed in one place.)
    pub fn power(e: usize) -> Element
        requires { e < 510 }
        ensures { result.0 ≡ power e }
    {
        Element(POWERS[e % 255])
    }

    // The exponent at which the generator's power is this element, from the table.
    pub fn log(self) -> usize
        requires { 0 < self.0 }
        ensures { (result < 255) × (power result ≡ self.0) }
    {
        usize::from(LOGS[usize::from(self.0)])
    }

    // The product by the tables. (No call of the library goes by them: docs/DECISIONS.md, language forms.)
    pub fn product_by_logs(self, other: Element) -> Element
        ensures { result.0 ≡ mul self.0 other.0 }
    {
        if self.0 == 0 || other.0 == 0 {
            return Element::ZERO;
        }
        Element::power(self.log() + other.log())
    }

    // The inverse by the tables; ZERO has none.
    pub fn inverse_by_logs(self) -> Element
        requires { 0 < self.0 }
        ensures { mul self.0 result.0 ≡ 1 }
    {
        Element::power(255 - self.log())
    }
}

// Each byte is doubled.
pub fn double_all(s: &mut [u8])
    ensures { (i : ℕ) → i < length s.old → get_or s.new i 0 ≡ double (get_or s.old i 0) }
{
    for x in s.iter_mut() {
        *x = Element(*x).twice().0;
    }
}
