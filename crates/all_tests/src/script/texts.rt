//! Texts that rows name: some stand here, and others in examples/.

use crate::rows::again;
use crate::script::examples::EXAMPLES;
use std::alloc::{AllocError, Global};

/// What stands behind the name of an entry, if that is its name.
fn text_behind<'a>(entry: &'a str, name: &str) -> Option<&'a str> {
    entry.strip_prefix(name)?.strip_prefix('\n')
}

/// The text of this name, of texts that each stand behind a sign of percent and a line with their name.
fn text_in(texts: &'static str, name: &str) -> Option<&'static str> {
    for entry in texts.split('%') {
        if let Some(text) = text_behind(entry, name) {
            return Some(text);
        }
    }
    None
}

/// The text of a name, or the part of a row itself where there is none.
pub fn meant(part: &str) -> &str {
    match text_in(NAMED, part) {
        Some(text) => text,
        None => text_in(EXAMPLES, part).unwrap_or(part),
    }
}

fn push_often(all: &mut String, times: usize, text: &str) -> Result<(), AllocError> {
    for _ in 0..times {
        all.push_str(text)?;
    }
    Ok(())
}

fn push_part(all: &mut String, part: &str) -> Result<(), AllocError> {
    match part.split_once(" times ") {
        Some((times, text)) => push_often(all, times.parse().unwrap_or(0), text),
        None => all.push_str(meant(part)),
    }
}

fn expanded_once(alloc: Global, text: &str) -> Result<String, AllocError> {
    let mut all = String::new(alloc);
    for part in text.split('%') {
        push_part(&mut all, part)?;
    }
    Ok(all)
}

/// A text of a row, with texts in the place of their names.
pub fn expanded(alloc: Global, text: &str) -> Result<String, AllocError> {
    again!(AllocError, expanded_once(alloc, text))
}

/// Texts that rows name, beside those of examples/. `SB` is store buffering as it stands in the rows of scripts, `store buffering` the same on
/// fewer lines, with a fence between the two accesses of each thread in `store buffering with fences`. `location by location` is a model of each
/// location alone, `without atomicity` one that forgets that an exchange is one step, and `weakness` has a flag on what `rc11.cat` allows beyond
/// sequential consistency. `four pairs` are four threads of a store to x and one to y each: 4! orders of each location, of which 3! end in each store. `script_first` is a session's put, ask, claim, return and poll, and `256 jobs` what is answered to the first asks.
const NAMED: &str = "
%SB
C SB
{}
P0 (atomic_int* x, atomic_int* y) {
  atomic_store_explicit(x, 1, memory_order_relaxed);
  int r0 = atomic_load_explicit(y, memory_order_relaxed);
}
P1 (atomic_int* x, atomic_int* y) {
  atomic_store_explicit(y, 1, memory_order_relaxed);
  int r0 = atomic_load_explicit(x, memory_order_relaxed);
}
exists (0:r0=0 /\\ 1:r0=0)
%SB summary
Test SB Allowed
States 4
0:r0=0; 1:r0=0;
0:r0=0; 1:r0=1;
0:r0=1; 1:r0=0;
0:r0=1; 1:r0=1;
Ok
Witnesses
Positive: 1 Negative: 3
Condition exists (0:r0=0 /\\ 1:r0=0)
Observation SB Sometimes 1 3
%SB never
Test SB Allowed
States 3
0:r0=0; 1:r0=1;
0:r0=1; 1:r0=0;
0:r0=1; 1:r0=1;
No
Witnesses
Positive: 0 Negative: 3
Condition exists (0:r0=0 /\\ 1:r0=0)
Observation SB Never 0 3
%IRIW
C IRIW
{ 0:r8=2; 0:r9=3; }
P0 (atomic_int* x) { atomic_store_explicit(x, 1, memory_order_release); }
P1 (atomic_int* y) { atomic_store_explicit(y, 1, memory_order_release); }
P2 (atomic_int* x, atomic_int* y) {
  int r0 = atomic_load_explicit(x, memory_order_acquire);
  int r1 = atomic_load_explicit(y, memory_order_acquire);
}
P3 (atomic_int* x, atomic_int* y) {
  int r0 = atomic_load_explicit(y, memory_order_acquire);
  int r1 = atomic_load_explicit(x, memory_order_acquire);
}
exists (2:r0=1 /\\ 2:r1=0 /\\ 3:r0=1 /\\ 3:r1=0)
%IRIW summary
Test IRIW Allowed
States 16
2:r0=0; 2:r1=0; 3:r0=0; 3:r1=0;
2:r0=0; 2:r1=0; 3:r0=0; 3:r1=1;
2:r0=0; 2:r1=0; 3:r0=1; 3:r1=0;
2:r0=0; 2:r1=0; 3:r0=1; 3:r1=1;
2:r0=0; 2:r1=1; 3:r0=0; 3:r1=0;
2:r0=0; 2:r1=1; 3:r0=0; 3:r1=1;
2:r0=0; 2:r1=1; 3:r0=1; 3:r1=0;
2:r0=0; 2:r1=1; 3:r0=1; 3:r1=1;
2:r0=1; 2:r1=0; 3:r0=0; 3:r1=0;
2:r0=1; 2:r1=0; 3:r0=0; 3:r1=1;
2:r0=1; 2:r1=0; 3:r0=1; 3:r1=0;
2:r0=1; 2:r1=0; 3:r0=1; 3:r1=1;
2:r0=1; 2:r1=1; 3:r0=0; 3:r1=0;
2:r0=1; 2:r1=1; 3:r0=0; 3:r1=1;
2:r0=1; 2:r1=1; 3:r0=1; 3:r1=0;
2:r0=1; 2:r1=1; 3:r0=1; 3:r1=1;
Ok
Witnesses
Positive: 1 Negative: 15
Condition exists (2:r0=1 /\\ 2:r1=0 /\\ 3:r0=1 /\\ 3:r1=0)
Observation IRIW Sometimes 1 15
%four pairs
C PAIRS {}
P0 (atomic_int* x, atomic_int* y) { atomic_store_explicit(x, 1, memory_order_relaxed); atomic_store_explicit(y, 1, memory_order_relaxed); }
P1 (atomic_int* x, atomic_int* y) { atomic_store_explicit(x, 2, memory_order_relaxed); atomic_store_explicit(y, 2, memory_order_relaxed); }
P2 (atomic_int* x, atomic_int* y) { atomic_store_explicit(x, 3, memory_order_relaxed); atomic_store_explicit(y, 3, memory_order_relaxed); }
P3 (atomic_int* x, atomic_int* y) { atomic_store_explicit(x, 4, memory_order_relaxed); atomic_store_explicit(y, 4, memory_order_relaxed); }
exists (x=1 /\\ y=2)
%four pairs summary
Test PAIRS Allowed
States 16
[x]=1; [y]=1;
[x]=1; [y]=2;
[x]=1; [y]=3;
[x]=1; [y]=4;
[x]=2; [y]=1;
[x]=2; [y]=2;
[x]=2; [y]=3;
[x]=2; [y]=4;
[x]=3; [y]=1;
[x]=3; [y]=2;
[x]=3; [y]=3;
[x]=3; [y]=4;
[x]=4; [y]=1;
[x]=4; [y]=2;
[x]=4; [y]=3;
[x]=4; [y]=4;
Ok
Witnesses
Positive: 36 Negative: 540
Condition exists ([x]=1 /\\ [y]=2)
Observation PAIRS Sometimes 36 540
%256 jobs
job 1
job 2
job 3
job 4
job 5
job 6
job 7
job 8
job 9
job 10
job 11
job 12
job 13
job 14
job 15
job 16
job 17
job 18
job 19
job 20
job 21
job 22
job 23
job 24
job 25
job 26
job 27
job 28
job 29
job 30
job 31
job 32
job 33
job 34
job 35
job 36
job 37
job 38
job 39
job 40
job 41
job 42
job 43
job 44
job 45
job 46
job 47
job 48
job 49
job 50
job 51
job 52
job 53
job 54
job 55
job 56
job 57
job 58
job 59
job 60
job 61
job 62
job 63
job 64
job 65
job 66
job 67
job 68
job 69
job 70
job 71
job 72
job 73
job 74
job 75
job 76
job 77
job 78
job 79
job 80
job 81
job 82
job 83
job 84
job 85
job 86
job 87
job 88
job 89
job 90
job 91
job 92
job 93
job 94
job 95
job 96
job 97
job 98
job 99
job 100
job 101
job 102
job 103
job 104
job 105
job 106
job 107
job 108
job 109
job 110
job 111
job 112
job 113
job 114
job 115
job 116
job 117
job 118
job 119
job 120
job 121
job 122
job 123
job 124
job 125
job 126
job 127
job 128
job 129
job 130
job 131
job 132
job 133
job 134
job 135
job 136
job 137
job 138
job 139
job 140
job 141
job 142
job 143
job 144
job 145
job 146
job 147
job 148
job 149
job 150
job 151
job 152
job 153
job 154
job 155
job 156
job 157
job 158
job 159
job 160
job 161
job 162
job 163
job 164
job 165
job 166
job 167
job 168
job 169
job 170
job 171
job 172
job 173
job 174
job 175
job 176
job 177
job 178
job 179
job 180
job 181
job 182
job 183
job 184
job 185
job 186
job 187
job 188
job 189
job 190
job 191
job 192
job 193
job 194
job 195
job 196
job 197
job 198
job 199
job 200
job 201
job 202
job 203
job 204
job 205
job 206
job 207
job 208
job 209
job 210
job 211
job 212
job 213
job 214
job 215
job 216
job 217
job 218
job 219
job 220
job 221
job 222
job 223
job 224
job 225
job 226
job 227
job 228
job 229
job 230
job 231
job 232
job 233
job 234
job 235
job 236
job 237
job 238
job 239
job 240
job 241
job 242
job 243
job 244
job 245
job 246
job 247
job 248
job 249
job 250
job 251
job 252
job 253
job 254
job 255
job 256
%script_first
0 cat none.cat
.
0 test
C SB
{}
P0 (atomic_int* x, atomic_int* y) {
  atomic_store_explicit(x, 1, memory_order_relaxed);
  int r0 = atomic_load_explicit(y, memory_order_relaxed);
}
P1 (atomic_int* x, atomic_int* y) {
  atomic_store_explicit(y, 1, memory_order_relaxed);
  int r0 = atomic_load_explicit(x, memory_order_relaxed);
}
exists (0:r0=0 /\\ 1:r0=0)
.
0 ask SB none.cat
0 poll 1
1 claim
1 return 1
0 poll 1
%script_first answers
version none.cat 1
version SB 1
job 1
pending 0 1
piece 1 job 1 slice 0 from 0 to 16
taken 1 1
verdict SB 1 none.cat 1
Test SB Allowed
States 4
0:r0=0; 1:r0=0;
0:r0=0; 1:r0=1;
0:r0=1; 1:r0=0;
0:r0=1; 1:r0=1;
Ok
Witnesses
Positive: 1 Negative: 3
Condition exists (0:r0=0 /\\ 1:r0=0)
Observation SB Sometimes 1 3
finish ok 7
%script_replaced
0 cat base.cat
let com = rf | co | fr
.
0 cat sc.cat
include \"base.cat\"
acyclic po | com as sc
.
0 test
C SB
{}
P0 (atomic_int* x, atomic_int* y) {
  atomic_store_explicit(x, 1, memory_order_relaxed);
  int r0 = atomic_load_explicit(y, memory_order_relaxed);
}
P1 (atomic_int* x, atomic_int* y) {
  atomic_store_explicit(y, 1, memory_order_relaxed);
  int r0 = atomic_load_explicit(x, memory_order_relaxed);
}
exists (0:r0=0 /\\ 1:r0=0)
.
0 ask SB sc.cat
1 claim
0 cat base.cat
let com = rf | co | fr
.
1 return 1
1 return 1
0 poll 1
0 ask SB sc.cat
work
0 poll 2
0 list
%two locations
C W2+3 {} P0 (atomic_int* x, atomic_int* y) {
  atomic_store(x, 1); atomic_store(x, 2);
} P1 (atomic_int* x, atomic_int* y) {
  atomic_store(y, 1); atomic_store(y, 2); atomic_store(y, 3);
} exists (x=1 /\\ y=3)%two locations summary
Test W2+3 Allowed
States 6
[x]=1; [y]=1;
[x]=1; [y]=2;
[x]=1; [y]=3;
[x]=2; [y]=1;
[x]=2; [y]=2;
[x]=2; [y]=3;
Ok
Witnesses
Positive: 2 Negative: 10
Condition exists ([x]=1 /\\ [y]=3)
Observation W2+3 Sometimes 2 10
%store buffering
C SB {}
P0 (atomic_int* x, atomic_int* y) {
  atomic_store_explicit(x, 1, memory_order_relaxed);
  int r0 = atomic_load_explicit(y, memory_order_relaxed);
}
P1 (atomic_int* x, atomic_int* y) {
  atomic_store_explicit(y, 1, memory_order_relaxed);
  int r0 = atomic_load_explicit(x, memory_order_relaxed);
}
exists (0:r0=0 /\\ 1:r0=0)%store buffering with fences
C SB {}
P0 (atomic_int* x, atomic_int* y) {
  atomic_store_explicit(x, 1, memory_order_relaxed);
  atomic_thread_fence(memory_order_seq_cst);
  int r0 = atomic_load_explicit(y, memory_order_relaxed);
}
P1 (atomic_int* x, atomic_int* y) {
  atomic_store_explicit(y, 1, memory_order_relaxed);
  atomic_thread_fence(memory_order_seq_cst);
  int r0 = atomic_load_explicit(x, memory_order_relaxed);
}
exists (0:r0=0 /\\ 1:r0=0)%location by location
acyclic po-loc | rf | co | fr as coherence
%without atomicity
acyclic po | rf | co | fr as sc
%weakness
include \"rc11.cat\"
flag ~acyclic po | rf | co | fr as not-sc
";
