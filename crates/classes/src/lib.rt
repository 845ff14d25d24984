// The class of a byte: the instruction that it is, if that is a common one.
#![tactic(auto)]

ghost use Rattle.classes.specs.Classes.{Agrees};

// Bytes from 32 to 63 are EMULATE on the narrow core: those of `Sub`, `Call` and `Neqbranch`, and of `Emulate`, which on the wide
// core are no common instructions. `Other` is no `None`: an Option would put `Some` on each of the forty rows below.
#[derive(Clone, Copy)]
pub enum Class {
    Im,
    Loadsp,
    Storesp,
    Addsp,
    Add,
    And,
    Or,
    Not,
    Flip,
    Load,
    Store,
    Poppc,
    Sub,
    Call,
    Neqbranch,
    Emulate,
    Other,
}

// No arm lists two neighbours, and `_` is left byte 0 alone: so the compiler makes one jump of this match and of the one on the
// class, with no test before it (docs/CHANGING.md).
#[tactic(auto, unfolding(machine::specs::Instructions::decode, machine::specs::Instructions::below32, machine::specs::Instructions::below64))]
pub fn class_of(byte: u8) -> Class
    ensures { Agrees result byte }
{
    match byte {
        // 1 to 15
        4 => Class::Poppc,
        5 => Class::Add,
        6 => Class::And,
        7 => Class::Or,
        8 => Class::Load,
        9 => Class::Not,
        10 => Class::Flip,
        12 => Class::Store,
        1 | 3 | 11 | 13 | 15 => Class::Other,
        2 | 14 => Class::Other,
        // 16 to 31: ADDSP
        16 | 18 | 20 | 22 | 24 | 26 | 28 | 30 => Class::Addsp,
        17 | 19 | 21 | 23 | 25 | 27 | 29 | 31 => Class::Addsp,
        // 32 to 63
        45 => Class::Call,
        49 => Class::Sub,
        56 => Class::Neqbranch,
        32 | 34 | 36 | 38 | 40 | 42 | 44 | 46 | 48 | 50 | 52 | 54 | 58 | 60 | 62 => Class::Emulate,
        33 | 35 | 37 | 39 | 41 | 43 | 47 | 51 | 53 | 55 | 57 | 59 | 61 | 63 => Class::Emulate,
        // 64 to 95: STORESP
        64 | 66 | 68 | 70 | 72 | 74 | 76 | 78 => Class::Storesp,
        65 | 67 | 69 | 71 | 73 | 75 | 77 | 79 => Class::Storesp,
        80 | 82 | 84 | 86 | 88 | 90 | 92 | 94 => Class::Storesp,
        81 | 83 | 85 | 87 | 89 | 91 | 93 | 95 => Class::Storesp,
        // 96 to 127: LOADSP
        96 | 98 | 100 | 102 | 104 | 106 | 108 | 110 => Class::Loadsp,
        97 | 99 | 101 | 103 | 105 | 107 | 109 | 111 => Class::Loadsp,
        112 | 114 | 116 | 118 | 120 | 122 | 124 | 126 => Class::Loadsp,
        113 | 115 | 117 | 119 | 121 | 123 | 125 | 127 => Class::Loadsp,
        // 128 to 255: IM
        128 | 130 | 132 | 134 | 136 | 138 | 140 | 142 => Class::Im,
        129 | 131 | 133 | 135 | 137 | 139 | 141 | 143 => Class::Im,
        144 | 146 | 148 | 150 | 152 | 154 | 156 | 158 => Class::Im,
        145 | 147 | 149 | 151 | 153 | 155 | 157 | 159 => Class::Im,
        160 | 162 | 164 | 166 | 168 | 170 | 172 | 174 => Class::Im,
        161 | 163 | 165 | 167 | 169 | 171 | 173 | 175 => Class::Im,
        176 | 178 | 180 | 182 | 184 | 186 | 188 | 190 => Class::Im,
        177 | 179 | 181 | 183 | 185 | 187 | 189 | 191 => Class::Im,
        192 | 194 | 196 | 198 | 200 | 202 | 204 | 206 => Class::Im,
        193 | 195 | 197 | 199 | 201 | 203 | 205 | 207 => Class::Im,
        208 | 210 | 212 | 214 | 216 | 218 | 220 | 222 => Class::Im,
        209 | 211 | 213 | 215 | 217 | 219 | 221 | 223 => Class::Im,
        224 | 226 | 228 | 230 | 232 | 234 | 236 | 238 => Class::Im,
        225 | 227 | 229 | 231 | 233 | 235 | 237 | 239 => Class::Im,
        240 | 242 | 244 | 246 | 248 | 250 | 252 | 254 => Class::Im,
        241 | 243 | 245 | 247 | 249 | 251 | 253 | 255 => Class::Im,
        // 0
        _ => Class::Other,
    }
}
