// The class of each of the 256 byte values. specs/Byte.antt has the rule, and the numbers under the same names. Numbers, not an enum: its
// tests of a byte, as `classed`, are by the order of the numbers.
ghost use Rattle.std.specs.Prelude.{◌≡◌};
ghost use Rattle.lexicon.specs.Byte.{class_of, blank_byte};

// A mark of one byte has its token's number. Letters and digits are the classes up to CAPITAL, below the marks; hex digits are
// those from SMALL_HEX to CAPITAL_HEX.
pub const SMALL: u8 = 0;

pub const SMALL_HEX: u8 = 1;

pub const DIGIT: u8 = 2;

pub const CAPITAL_HEX: u8 = 3;

pub const CAPITAL: u8 = 4;

// The other bytes come after the marks.
pub const COLON: u8 = terminal::BAR + 1;

pub const DOT: u8 = terminal::BAR + 2;

pub const APOSTROPHE: u8 = terminal::BAR + 3;

pub const HYPHEN: u8 = terminal::BAR + 4;

// No token starts with it, and it may stand in a text.
pub const PLAIN: u8 = terminal::BAR + 5;

// The blanks are the classes from NEWLINE to FEED. NEWLINE ends a comment, and FEED is forbidden in a text.
pub const NEWLINE: u8 = terminal::BAR + 6;

// What may stand in a text are the classes up to SPACE.
pub const SPACE: u8 = terminal::BAR + 7;

pub const FEED: u8 = terminal::BAR + 8;

pub const QUOTE: u8 = terminal::BAR + 9;

// No token starts with it, and it is forbidden in a text.
pub const OTHER: u8 = terminal::BAR + 10;

// The class of each byte; a mark of one byte has its token's.
static CLASSES: [u8; 256] = [
    OTHER, // 0
    OTHER, // 1
    OTHER, // 2
    OTHER, // 3
    OTHER, // 4
    OTHER, // 5
    OTHER, // 6
    OTHER, // 7
    OTHER, // 8
    SPACE, // 9
    NEWLINE, // 10
    FEED, // 11
    FEED, // 12
    NEWLINE, // 13
    OTHER, // 14
    OTHER, // 15
    OTHER, // 16
    OTHER, // 17
    OTHER, // 18
    OTHER, // 19
    OTHER, // 20
    OTHER, // 21
    OTHER, // 22
    OTHER, // 23
    OTHER, // 24
    OTHER, // 25
    OTHER, // 26
    OTHER, // 27
    OTHER, // 28
    OTHER, // 29
    OTHER, // 30
    OTHER, // 31
    SPACE, // 32
    PLAIN, // 33
    QUOTE, // 34
    PLAIN, // 35
    PLAIN, // 36
    PLAIN, // 37
    PLAIN, // 38
    APOSTROPHE, // 39
    terminal::LEFT_PAREN, // 40
    terminal::RIGHT_PAREN, // 41
    PLAIN, // 42
    PLAIN, // 43
    terminal::COMMA, // 44
    HYPHEN, // 45
    DOT, // 46
    PLAIN, // 47
    DIGIT, // 48
    DIGIT, // 49
    DIGIT, // 50
    DIGIT, // 51
    DIGIT, // 52
    DIGIT, // 53
    DIGIT, // 54
    DIGIT, // 55
    DIGIT, // 56
    DIGIT, // 57
    COLON, // 58
    terminal::SEMICOLON, // 59
    PLAIN, // 60
    PLAIN, // 61
    PLAIN, // 62
    PLAIN, // 63
    PLAIN, // 64
    CAPITAL_HEX, // 65
    CAPITAL_HEX, // 66
    CAPITAL_HEX, // 67
    CAPITAL_HEX, // 68
    CAPITAL_HEX, // 69
    CAPITAL_HEX, // 70
    CAPITAL, // 71
    CAPITAL, // 72
    CAPITAL, // 73
    CAPITAL, // 74
    CAPITAL, // 75
    CAPITAL, // 76
    CAPITAL, // 77
    CAPITAL, // 78
    CAPITAL, // 79
    CAPITAL, // 80
    CAPITAL, // 81
    CAPITAL, // 82
    CAPITAL, // 83
    CAPITAL, // 84
    CAPITAL, // 85
    CAPITAL, // 86
    CAPITAL, // 87
    CAPITAL, // 88
    CAPITAL, // 89
    CAPITAL, // 90
    PLAIN, // 91
    PLAIN, // 92
    PLAIN, // 93
    PLAIN, // 94
    PLAIN, // 95
    PLAIN, // 96
    SMALL_HEX, // 97
    SMALL_HEX, // 98
    SMALL_HEX, // 99
    SMALL_HEX, // 100
    SMALL_HEX, // 101
    SMALL_HEX, // 102
    SMALL, // 103
    SMALL, // 104
    SMALL, // 105
    SMALL, // 106
    SMALL, // 107
    SMALL, // 108
    SMALL, // 109
    SMALL, // 110
    SMALL, // 111
    SMALL, // 112
    SMALL, // 113
    SMALL, // 114
    SMALL, // 115
    SMALL, // 116
    SMALL, // 117
    SMALL, // 118
    SMALL, // 119
    SMALL, // 120
    SMALL, // 121
    SMALL, // 122
    terminal::LEFT_BRACE, // 123
    terminal::BAR, // 124
    terminal::RIGHT_BRACE, // 125
    PLAIN, // 126
    OTHER, // 127
    OTHER, // 128
    OTHER, // 129
    OTHER, // 130
    OTHER, // 131
    OTHER, // 132
    OTHER, // 133
    OTHER, // 134
    OTHER, // 135
    OTHER, // 136
    OTHER, // 137
    OTHER, // 138
    OTHER, // 139
    OTHER, // 140
    OTHER, // 141
    OTHER, // 142
    OTHER, // 143
    OTHER, // 144
    OTHER, // 145
    OTHER, // 146
    OTHER, // 147
    OTHER, // 148
    OTHER, // 149
    OTHER, // 150
    OTHER, // 151
    OTHER, // 152
    OTHER, // 153
    OTHER, // 154
    OTHER, // 155
    OTHER, // 156
    OTHER, // 157
    OTHER, // 158
    OTHER, // 159
    OTHER, // 160
    OTHER, // 161
    OTHER, // 162
    OTHER, // 163
    OTHER, // 164
    OTHER, // 165
    OTHER, // 166
    OTHER, // 167
    OTHER, // 168
    OTHER, // 169
    OTHER, // 170
    OTHER, // 171
    OTHER, // 172
    OTHER, // 173
    OTHER, // 174
    OTHER, // 175
    OTHER, // 176
    OTHER, // 177
    OTHER, // 178
    OTHER, // 179
    OTHER, // 180
    OTHER, // 181
    OTHER, // 182
    OTHER, // 183
    OTHER, // 184
    OTHER, // 185
    OTHER, // 186
    OTHER, // 187
    OTHER, // 188
    OTHER, // 189
    OTHER, // 190
    OTHER, // 191
    OTHER, // 192
    OTHER, // 193
    OTHER, // 194
    OTHER, // 195
    OTHER, // 196
    OTHER, // 197
    OTHER, // 198
    OTHER, // 199
    OTHER, // 200
    OTHER, // 201
    OTHER, // 202
    OTHER, // 203
    OTHER, // 204
    OTHER, // 205
    OTHER, // 206
    OTHER, // 207
    OTHER, // 208
    OTHER, // 209
    OTHER, // 210
    OTHER, // 211
    OTHER, // 212
    OTHER, // 213
    OTHER, // 214
    OTHER, // 215
    OTHER, // 216
    OTHER, // 217
    OTHER, // 218
    OTHER, // 219
    OTHER, // 220
    OTHER, // 221
    OTHER, // 222
    OTHER, // 223
    OTHER, // 224
    OTHER, // 225
    OTHER, // 226
    OTHER, // 227
    OTHER, // 228
    OTHER, // 229
    OTHER, // 230
    OTHER, // 231
    OTHER, // 232
    OTHER, // 233
    OTHER, // 234
    OTHER, // 235
    OTHER, // 236
    OTHER, // 237
    OTHER, // 238
    OTHER, // 239
    OTHER, // 240
    OTHER, // 241
    OTHER, // 242
    OTHER, // 243
    OTHER, // 244
    OTHER, // 245
    OTHER, // 246
    OTHER, // 247
    OTHER, // 248
    OTHER, // 249
    OTHER, // 250
    OTHER, // 251
    OTHER, // 252
    OTHER, // 253
    OTHER, // 254
    OTHER, // 255
];

// The class of the byte b.
pub fn class_of(b: u8) -> u8
    ensures { result ≡ class_of b }
{
    CLASSES[b as usize]
}

// Whether the byte b is a blank.
pub fn is_blank(b: u8) -> bool
    ensures { result ≡ blank_byte b 0 }
{
    (NEWLINE..=FEED).contains(&class_of(b))
}
