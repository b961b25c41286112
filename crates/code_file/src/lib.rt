// The code file (Manual 3): body lengths, operands, jump targets, procedure heads.
#![tactic(auto)]

ghost use Rattle.std.specs.Prelude.{◌≡◌, ◌+◌, ◌<◌, length};
ghost use Rattle.model.specs.File as model;
ghost use Rattle.numbers.specs.Small.{Small};
ghost use Rattle.code_file.specs.Table.{lengths};
ghost use Rattle.code_file.specs.Heads.{HeadIs};

// The length of each kind's body; 255 marks a kind that there is not, as the definition has it. A constant table of 256 lengths is a rule of the project.
const BODY: [u8; 256] = [
    255, // 0
    2, // 1 fjump
    2, // 2 jumpf
    2, // 3 bjump
    2, // 4 bjumpt
    2, // 5 jumpff
    2, // 6 jumptt
    255, // 7
    255, // 8
    255, // 9
    255, // 10
    255, // 11
    255, // 12
    255, // 13
    255, // 14
    255, // 15
    255, // 16
    255, // 17
    255, // 18
    255, // 19
    2, // 20 wLocal
    2, // 21 pLocal
    2, // 22 wLocalAss
    2, // 23 pLocalAss
    255, // 24
    255, // 25
    255, // 26
    255, // 27
    255, // 28
    255, // 29
    2, // 30 wField
    2, // 31 pField
    2, // 32 wSet
    2, // 33 pSet
    255, // 34
    255, // 35
    4, // 36 form
    255, // 37
    255, // 38
    255, // 39
    255, // 40
    255, // 41
    255, // 42
    255, // 43
    255, // 44
    255, // 45
    255, // 46
    255, // 47
    255, // 48
    255, // 49
    255, // 50
    255, // 51
    255, // 52
    8, // 53 lLReal
    1, // 54 lLInt
    255, // 55
    4, // 56 lLWord
    0, // 57 lNil
    0, // 58 root
    0, // 59 set_root
    4, // 60 wRetract
    255, // 61
    4, // 62 pRetract
    255, // 63
    4, // 64 retract
    255, // 65
    255, // 66
    255, // 67
    255, // 68
    255, // 69
    255, // 70
    255, // 71
    2, // 72 call
    0, // 73 return
    255, // 74
    255, // 75
    255, // 76
    255, // 77
    255, // 78
    255, // 79
    0, // 80 wVector
    0, // 81 pVector
    0, // 82 wElement
    0, // 83 pElement
    0, // 84 wElementSet
    0, // 85 pElementSet
    255, // 86
    255, // 87
    255, // 88
    255, // 89
    255, // 90
    255, // 91
    255, // 92
    255, // 93
    255, // 94
    255, // 95
    255, // 96
    255, // 97
    255, // 98
    255, // 99
    255, // 100
    255, // 101
    255, // 102
    255, // 103
    255, // 104
    255, // 105
    255, // 106
    255, // 107
    255, // 108
    255, // 109
    255, // 110
    255, // 111
    255, // 112
    255, // 113
    255, // 114
    255, // 115
    255, // 116
    255, // 117
    255, // 118
    255, // 119
    255, // 120
    255, // 121
    255, // 122
    255, // 123
    255, // 124
    255, // 125
    255, // 126
    255, // 127
    255, // 128
    255, // 129
    0, // 130 eqW
    0, // 131 eqP
    255, // 132
    255, // 133
    255, // 134
    255, // 135
    255, // 136
    255, // 137
    255, // 138
    255, // 139
    0, // 140 plus
    0, // 141 times
    0, // 142 minus
    0, // 143 div
    0, // 144 neg
    0, // 145 rem
    0, // 146 not
    255, // 147
    255, // 148
    255, // 149
    0, // 150 f_plus
    0, // 151 f_times
    0, // 152 f_minus
    0, // 153 f_divide
    255, // 154
    0, // 155 fLess
    0, // 156 hoop
    255, // 157
    255, // 158
    255, // 159
    2, // 160 enterEHandled
    0, // 161 exitEHandled
    0, // 162 raise
    255, // 163
    255, // 164
    255, // 165
    255, // 166
    255, // 167
    255, // 168
    255, // 169
    255, // 170
    255, // 171
    255, // 172
    255, // 173
    255, // 174
    255, // 175
    255, // 176
    255, // 177
    255, // 178
    255, // 179
    255, // 180
    255, // 181
    255, // 182
    255, // 183
    255, // 184
    255, // 185
    255, // 186
    255, // 187
    255, // 188
    255, // 189
    255, // 190
    255, // 191
    255, // 192
    255, // 193
    255, // 194
    0, // 195 lt
    255, // 196
    255, // 197
    0, // 198 le
    255, // 199
    255, // 200
    0, // 201 gt
    255, // 202
    255, // 203
    0, // 204 ge
    255, // 205
    255, // 206
    255, // 207
    255, // 208
    255, // 209
    255, // 210
    255, // 211
    255, // 212
    255, // 213
    255, // 214
    255, // 215
    255, // 216
    255, // 217
    255, // 218
    255, // 219
    255, // 220
    255, // 221
    255, // 222
    255, // 223
    255, // 224
    255, // 225
    255, // 226
    255, // 227
    255, // 228
    255, // 229
    255, // 230
    255, // 231
    255, // 232
    255, // 233
    255, // 234
    255, // 235
    255, // 236
    255, // 237
    255, // 238
    255, // 239
    6, // 240 head
    255, // 241
    255, // 242
    255, // 243
    255, // 244
    255, // 245
    255, // 246
    255, // 247
    255, // 248
    255, // 249
    255, // 250
    255, // 251
    255, // 252
    255, // 253
    255, // 254
    255, // 255
];

// A copy of the table, which the scan takes and reads. Read in place its address is made anew for each record: in a file whose bodies all have
// two bytes the scan then took 1.3 to 1.45 times as long.
pub fn bodies() -> [u8; 256]
    ensures { result ≡ lengths }
{
    BODY
}

// The length of a kind's body, 255 for an unknown kind, as `body_of` has it; `bodies` is a copy of the table.
pub fn body(bodies: &[u8; 256], kind: u8) -> usize
    requires { bodies.now ≡ lengths }
    ensures { Small 256 (model.body_of kind) result }
{
    bodies[kind as usize] as usize
}

// The 16-bit operand of the instruction at p, most significant byte first.
#[tactic(auto, unfolding(model::specs::File::operand))]
pub fn operand(file: &[u8], p: usize) -> usize
    requires { p + 2 < length file.now }
    ensures { Small 65536 (model.operand file.now p) result }
{
    u16::from_be_bytes([file[p + 1], file[p + 2]]) as usize
}

// The second 16-bit operand. It and `operand_low` stay beside `operand` and `operand4`: each is a definition's own name.
#[tactic(auto, unfolding(model::specs::File::operand2))]
pub fn operand2(file: &[u8], p: usize) -> usize
    requires { p + 4 < length file.now }
    ensures { Small 65536 (model.operand2 file.now p) result }
{
    operand(file, p + 2)
}

// The four bytes behind p as a word.
#[tactic(auto, unfolding(model::specs::File::operand, model::specs::File::operand2, model::specs::File::operand4))]
pub fn operand4(file: &[u8], p: usize) -> u32
    requires { p + 4 < length file.now }
    ensures { Small 4294967296 (model.operand4 file.now p) result }
{
    u32::from_be_bytes([file[p + 1], file[p + 2], file[p + 3], file[p + 4]])
}

// The four bytes behind those as a word: the low word of 53.
#[tactic(auto, unfolding(model::specs::File::operand_low))]
pub fn operand_low(file: &[u8], p: usize) -> u32
    requires { p + 8 < length file.now }
    ensures { Small 4294967296 (model.operand_low file.now p) result }
{
    operand4(file, p + 4)
}

// A signed byte as a word.
#[tactic(auto, unfolding(model::specs::File::signed_byte))]
pub fn signed_byte(b: u8) -> u32
    ensures { Small 4294967296 (model.signed_byte b) result }
{
    i32::from(b.cast_signed()).cast_unsigned()
}

// Where the jump at p leads, forwards.
#[tactic(auto, unfolding(model::specs::File::forwards))]
pub fn forwards(file: &[u8], p: usize) -> usize
    requires { p + 2 < length file.now }
    ensures { Small (p + 65539) (model.forwards file.now p) result }
{
    p + 3 + operand(file, p)
}

// Where the jump at p leads, backwards; 0 if that is before the file's first byte.
#[tactic(auto, unfolding(model::specs::File::backwards))]
pub fn backwards(file: &[u8], p: usize) -> usize
    requires { p + 2 < length file.now }
    ensures { Small (p + 4) (model.backwards file.now p) result }
{
    (p + 3).saturating_sub(operand(file, p))
}

// A procedure head's six bytes.
#[derive(Clone, Copy)]
pub struct Head {
    pub a: usize, // main parameters
    pub b: usize, // pointer parameters
    pub r: usize, // main results
    pub s: usize, // pointer results
    pub x: usize, // greatest main depth
    pub y: usize, // greatest pointer depth
}

#[tactic(auto, unfolding(crate::specs::Heads::head_bytes))]
pub fn head_at(file: &[u8], h: usize) -> Head
    requires { h + 6 < length file.now }
    ensures { HeadIs file.now h result }
{
    Head {
        a: file[h + 1] as usize,
        b: file[h + 2] as usize,
        r: file[h + 3] as usize,
        s: file[h + 4] as usize,
        x: file[h + 5] as usize,
        y: file[h + 6] as usize,
    }
}
