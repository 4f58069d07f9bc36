//! Scripts that were drawn, most with a fault put in. What is told of each stands before it, with `--` between each two.
//! tests/drawn_scripts makes this file: a finder of faults that is written apart tells them (tests/find_faults.awk).

pub const DRAWN_SCRIPTS: &str = "\
1 clients
mutex m4
routine r1
done
routine r2
unless m4 try simple r1
done
routine r0
times 4 unless m4 try advance 4
unless m4 try advance 9223372036854775807
try-acquire m4
done
routine r3
done
--
3 9 Unexpected
semaphore s5 1 1
routine r1
times 1 18446744073709551616 s5 ma-run-long
done
--
5 1 Unexpected
memory m9
semaphore s10 0 1
routine r6
# done
routine r7
let l12 timer r6 long persistent
times 5 set-timer-ex l12 0 7 9
done
routine r8
times 10000 if s10 release-semaphore s10 2147483647
release-semaphore s10 1
unless s10 advance 9223372036854775807
done
client
unless s10 try-acquire s10
done
client
unless s10 try simple r7 context 18446744073709551615
don
client
times 6 if s10 simple r7 context 18446744073709551615 long
times 10000 try-acquire s10
done
--
2 clients
wait w14 r_234567890abcdefghijklmnopqrstu context 6
routine r_234567890abcdefghijklmnopqrstu
done
routine r13
disassociate
quiet w14
done
client
done
--
1 22 Unexpected
wait w16 r3 priority highZ
routine r7
done
routine r3
quiet w16
times 10000 if s2 try simple r3 priority high long persistent
done
client
acquire s2
donAe
client
times 10000 unless s2 acquire s2
try advance 3
unless s2 set-wait w16 s2 none
done
--
4 clients
pool p20 max 4294967295
routine r18
done
routine r6
done
routine r19
advance 9223372036854775807
done
client
done
client
times 1 try advance 9223372036854775807
done
client
done
--
6 8 UnknownName
routine r21
done
client
done
client
unless x3 cancel-io x0
done
client
done
--
7 17 UnknownName
event e4 manual set
event e25 manual clear
routine r22
try unless e4 set-event e4
done
routine r0
if e4 set-timer x1 none 0 5
done
routine r23
done
--
1 clients
routine r26
done
routine r27
times 1 advance 9223372036854775807
done
--
1 26 Unexpected
semaphore s30 2147483647 1
mutex m31
mutex m33
routine r28
if m31 disassociate
done
--
6 1 Unexpected
routine r34
done
client
advance 0
done
cient
done
--
11 19 UnknownName
routine r35
times 5 try advance 1
done
routine r36
done
client
done
client
done
client
try close-members x0 keep 1
done
--
5 16 UnknownName
semaphore r5 2147483647 2147483647
group g_234567890abcdefghijklmnopqrst
work w4 r5 priority low long persistent group g_234567890abcdefghijklmnopqrst cancel r37
routine r37
times 6 try if s38 set-wait x2 none 866
times 10000 if s38 try on-return s38
if s38 may-run-long
done
routine r5
done
--
4 12 UnknownName
routine r39
done
client
try submit x4
done
client
done
--
4 9 NameTwice
routine r_234567890abcdefghijklmnopqrstu
try advance 8
done
routine r_234567890abcdefghijklmnopqrstu
done
client
done
client
times 1 set-timer x1 -522 3 6
done
client
times 2 try unless x2 release-semaphore x3 5
done
--
1 clients
routine r40
done
routine r_234567890abcdefghijklmnopqrstu
done
--
5 16 UnknownName
group g44
routine r41
done
routine r8
times 1 try if x3 set-event x4
done
routine r42
times 1 advance 9223372036854775807
done
routine r43
done
client
done
client
done
--
3 27 UnknownName
mutex m47
routine r45
times 7 unless m47 submit x1
done
routine r7
if m47 try release m47
advance 9223372036854775807
done
routine r5
if m47 try-acquire m47
if m47 may-run-long
done
routine r46
done
client
times 10000 if m47 try-acquire m47
done
--
1 clients
routine r48
done
routine r49
done
routine x
done
--
11 1 Unexpected
event e55 manual set
event e56 manual set
routine r51
done
routine r52
done
client
unless e56 acquire e55
times 1 simple r51 priority normal long
done
routine r54 r54
done
routine r53
done
client
times 2 unless e56 advance 9223372036854775807
times 6 advance 92233720368547758a07
done
--
2 24 UnknownName
routine r57
times 10000 try unless x3 cancel-io x4
done
routine r58
done
routine r4
times 5 try advance 8
done
routine r59
done
client
done
--
2 clients
group g64
section s65
mutex m66
pool p2
routine r60
unless m66 close-pool p2
done
routine r61
times 10000 if s65 simple r61 context 8 in p2 group g64 cancel r60
release m66
done
routine r62
times 10000 if m66 acquire s65
done
routine r63
times 10000 unless s65 close-group g64
done
client
done
--
10 37 UnknownName
section s69
routine r67
times 1 unless s69 may-run-long
times 1 if s69 advance 0
times 2 unless s69 try disassociate
done
routine r68
done
client
times 10000 unless s69 set-timer-ex x1 9223372036854775807 3 0
done
client
try unless s69 release s69
times 10000 unless s69 try-acquire s69
if s69 advance 9223372036854775807
done
--
2 1 Unexpected
section s73
times 4 release s73
routine r70
done
--
4 clients
pool p76 max 9 min 0
routine r75
done
client
times 9 try close-pool p76
done
client
times 1 try set-minimum p76 0
done
client
done
--
5 1 Unexpected
routine r77
done
client
done
clint
done
client
done
--
6 20 UnknownName
routine r79
done
client
done
client
times 10000 submit submit x4
client
times 8try is-timer-set x0
done
--
4 23 UnknownName
semaphore s86 1 1
memory m87
routine r81
unless s86 close-pool x1
unless s86 acquire s86
times 10000 if s86 on-return s86 5
done
routine r82
times 1 unless s86 release-semaphore s86 9
times 2 if s86 try-acquire s86
times 8 unless s86 acquire s86
done
routine r83
times 10000 if s86 may-run-long
if s86 try-acquire s86
unless s86 on-return s86 1
done
routine r84
times 5 if s86 acquire s86
done
--
3 9 Unexpected
wait w0 r89 context 8 priority normal persistent
section s90
routine 0
done
routine r89
done
client
times 1 try unless s90 try-acquire s90
done
--
2 8 Unexpected
section s93
memory 94
routine r91
times 6 try release s93
if s93 acquire s93
m94
routine r1
unless s93 on-return s93
simple r91 priority low
done
routine r92
times 1 on-return s93
try if s93 acquire s93
done
client
done
--
7 16 UnknownName
routine r95
done
routine r96
done
routine r97
times 10000 may-run-long
times 6 unless x1 try cancel-io x1
done
client
done
--
4 clients
pool p100 min 4294967295
semaphore s101 1 2147483647
routine r5
done
routine r98
done
routine r99
done
client
if s101 set-maximum p100 4
done
client
if s101 close-pool p100
done
client
done
--
3 1 Unexpected
semaphore s105 1 1
routine r102
routine r104
routine r103
if s105 try-acquire s105
times 5 unless s105 set-timer x3 -860 0 4294967295
done
done
try issue-io x0 r103
done
client
done
client
try-acquire s105
r103
--
4 15 UnknownName
routine r108
done
routine r109
try set-event x2
times 5 try unless x2 start-io x3
done
routine r110
done
client
advance 9223372036854775807
done
client
done
client done
done
--
4 clients
semaphore s112 7 7
routine r111
if s112 on-return s112
done
client
times 1 unless s112 release-semaphore s112 2147483647
acquire s112
done
client
unless s112 acquire s112
done
client
times 10000 try advance 1
done
--
10 1 Unexpected
work w115 r114 context 0 long persistent
routine r113
done
routine r114
done
client
times 1 close w115
done
client
w115
--
3 clients
wait w120 r118 priority high long
mutex m124
routine r118
done
routine r119
unless m124 disassociate
times 7 unless m124 release m124
if m124 wait w120 keep
done
client
times 4 unless m124 simple r119 priority normal persistent
try-acquire m124
times 8 set-wait w120 none 9223372036854775807
done
client
if m124 release m124
done
--
1 27 Unexpected
semaphore s127 2147483647 1
routine r126
done
client
done
client
times 8 if s127 try release-semaphore s127 1
done
client
if s127 acquire s127
try if s127 close-members x1 keep 18446744073709551615
done
--
2 1 Unexpected
event e32 manual clear
times 6 try unless e132 acquire e133
routine r6
done
routine r129
times 10000 acquire e132
event e133 manual set
if e133 try-acquire e132
done
routine r6
times 8 acquire e133
times 2 unless e132 simple r130 context 9 long persistent
done
routine r131
done
client
done
client
done
--
3 20 UnknownName
routine r134
times 5 advance 2
times 10000 unless x0 cancel-io x3
done
client
--
1 11 UnknownName
work w138 r137 context 8 priority low persistent
routine r136
done
--
4 1 Unexpected
routine r139
done
# routine r140
done
routine r3
complete-io x3 9 8
done
routine r141
5 x1 2 18446744073709551615
done
client
done
--
1 clients
memory m145
routine r142
done
routine r143
times 10000 try disassociate
done
routine r144
done
--
7 1 Unexpected
wait w149 r146 context 0 long
routine r146
done
routine r147
times 9 disassociate
times 9 disassociate
routine r7
times 7 wait w149 cancel
  done  
routine r148
done
--
6 1 Unclosed
mutex m7
pool p151 max 5
semaphore s152 3 3
routine r150
if s152 simple r150 in p151 persistent
--
4 clients
routine r153
done
routine r154
done
routine r155
times 10000 try advance 8
done
routine r156
times 1 may-run-long
done
client
done
client
done
client
done
--
2 11 UnknownName
routine r158
set-timer x3 0 4294967295 2
done
routine r159
done
close-pool
done
--
3 1 Unexpected
section s162
timer t163 r161 priority high persistent
try release s162
times 10000 try advance 0
done
client
try if s162 try-acquire s162
done
client
done
client
if s162 close-pool x2
routine r161
if s162 is-timer-set t163
try unless s162 close t163
try if s162 set-timer t163 0 0 8
done
--
8 4 UnknownName
routine r164
done
routine r165
done
routine r166
done
routine r3
if x3 reset-event x0
done done
--
1 18 Unexpected
semaphore s170 6 1
timer t171 r169 context 2 long persistent
semaphore s172 2147483647 2147483647 2147483647
--
1 1 Unexpected
done p177
routine r174
times 5 unless x3 start-io x0
done
routine r175
done
routine r176
done
routine r_234567890abcdefghijklmnopqrstuv
done
client
done
client
try set-maximum p177 9
set-maximum p177 4294967295
set-maximum p177 0
done
--
5 8 UnknownName
memory m182
routine r178
done
routine r179
unless x3 set-wait x2 x2 -270
done
routine r180
if x4 simple r178 in x2 priority normal long
done
routine r181
times 8 advance 9
release x0
done
client
simple r181 priority high
times 1 if x0 set-minimum x2 4294967295
done
client
done
--
3 clients
routine r183
done
routine r184
done
routine r185
done
client
done
client
done
--
1 18 Unexpected
semaphore s189 9 1
wait w191 r187 context 2 persistent
routine r186
if s189 disassociate
done
routine r187
times 5 may-run-long
done
rou\rtine r188
done
client
times 10000 if s189 try-acquire s189
if s189 wait w191 keep
unless s189 set-wait w191 none none
done
--
1 1 Unexpected
done
disassociate
done
routine r193
done
routine r194
routine r192
routine r195
done
client
done
client
done
--
6 1 Unexpected
routine r196
done
routine r97
done
routine r198
dne
client
try unless x4 try-acquire x4
done
--
4 1 Unclosed
routine r200
done
routine r201
--
4 clients
pool p204 max 5
event e205 manual set
routine r202
if e205 advance 0
close-pool p204
done
client
close-pool p204
done
client
if e205 try-acquire e205
done
client
done
--
1 1 Unexpected
routin1 r207
try if x4 close-pool x0
done
routine r208
routine r209
simple r207 context 0 priority low
done
--
4 1 Unexpected
routine r3
done
client
r3
--
6 8 Unexpected
memory m3
memory m0
semaphore s212 5 5
routine r210
times 5 unless s212 advance 0
times  acquire s212
# done
client
if s212 try-acquire s212
times 7 if s212 advance 3
done
client
times 5 close-pool x3
unless s212 release-semaphore s212 2147483647
done
client
if s212 advance 9
acquire s212
done
--
5 1 Unexpected
memory m3
routine r213
times 10000 try simple r213 priority high long
done
done
routine r215
done
routine r216
times 1 if m217 release m217
simple r214 context 9
on-return m217
times 10000 try may-run-long
done
--
1 1 Unexpected
done
client client
done
client
unless x2 advance 8
done
--
2 4 UnknownName
routine r219
if x2 try set-timer-ex x1 -236 0 1
done
routine r220
done
client
done
--
3 21 Unexpected
section s222
routine r221
times 1 try advance x1 7
times 10000 if s222 acquire s222
done
client
done
client
unless s222 try release s222
unless s222 try advance 5
try-acquire s222
times 10000 unless s222 acquire s222
done
client
done
--
4 clients
work w226 r225 context 3 long
pool p229 max 9
io i230 r225 priority low persistent
io i231 r224 priority low long persistent
routine r223
done
routine r224
try complete-next i230 0 6
done
routine r225
times 9 submit w226
times 10000 try advance 3
done
client
times 9 complete-next i230 8 5
done
client
start-io i231
times 4 set-maximum p229 2
set-minimum p229 8
done
client
try cancel-io i230
done
--
1 1 Unexpected
outine r232
done
client
done
client
done
--
2 1 Unexpected
routine r234
routine r235
done
done
client x
acquire x1
done
--
11 1 Unexpected
section s240
routine r236
try unless s240 acquire s240
if s240 try advance 0
done
routine r237
try may-run-long
done
routine r238
done
r238
times 5 unless s240 acquire s240
done
client
done
--
2 12 Unexpected
pool p244 max 4
routine r8 r8
unless x3 start-io x1
done
routine r242
try advance 1
r242
routine r243
done
client
done
client
done
client
done
--
1 13 Unexpected
memory m246 x4
routine r245
done
client
done
client
done
client
done
--
13 9 UnknownName
memory m251
routine r247
free m251
done
routine r248
may-run-long
done
routine r249
done
routine r250
done
client
release x2
done
--
2 clients
routine r253
done
client
done
--
2 1 Unexpected
group g257
r255 -9223372036854775809
done
routine r255
--
1 18 Unexpected
semaphore s260 5 1
routine r5
times 10000 unless s260 on-return s260 8
advance 1
times 1 acquire s260
try unless s260 submit x4
times 2 acquire s260
done
--
6 1 Unexpected
routine r262
done
routine r263
done
client
adone
--
6 33 Unexpected
pool p265 max 4294967295 min 3
routine r_234567890abcdefghijklmnopqrstu
times 10000 disassociate
done
client
try set-maximum p265 4294967295 4294967295
done
client
done
client
done
--
7 26 Unexpected
section s268
routine r266
done
routine r267
done
client
unless s268 acquire s268 s268
if s268 try-acquire s268
try-acquire s268
-0
client
times 5 unless s268 release s268
if s268 advance 6
done
client
unless s268 try reset-event x4
done
--
1 13 Unexpected
memory m273 m273
pool p274 min 0
done
--
4 13 Unexpected
wait w276 r275 priority normal
pool p277 max 2 min 8
routine r275
set-maximum set-maximum p277 4294967295
done
client
done
client
set-wait w276 none 0
done
client
done
--
7 13 UnknownName
routine r278
done
client
simple r278 long
done
client
try release x4
done
client
done
--
3 clients
io i281 r280 priority low
event e283 manual set
event e284 auto clear
routine r280
times 1 unless e283 disassociate
unless e283 try-acquire e284
done
client
times 1 unless e284 close i281
done
client
done
--
6 8 UnknownName
routine r7
done
routine r285
done
client
unless x1 try wait x1 cancel
done
--
5 1 Unexpected
group g287
routine r286
times 8 try close-group g287
done
g287
release-semaphore x3 7
times 10000 unless x4 is-timer-set x0
quiet g287
done
client
done
--
4 9 WrongName
mutex m293
event e294 auto set
routine r288
release r289
done
routine r289
if m293 acquire e294
done
routine r290
try let l295 wait r288
times 5 if m293 on-return e294
done
routine r291
done
--
3 8 Unexpected
routine r297
done
client x
done
routine r298
done
routine r299
done
routine r_234567890abcdefghijklmnopqrstu
done
client
done
client
done
--
1 1 Unexpected
advance 9223372036854775807
done
routine r301
times 10000 advance 9223372036854775807
done
routine r302
done
routine r303
done
--
11 11 UnknownName
event e308 auto set
group g309
routine r305
if e308 advance 9223372036854775807
times 10000 unless e308 close-members g309 cancel 6
done
routine r306
done
client
unless e308 try set-event e308
set-timer x1 -9223372036854775808 4 4294967295
done
--
1 clients
semaphore s312 0 2147483647
routine r310
advance 7
times 10000 try-acquire s312
done
routine r311
unless s312 on-return s312
times 10000 advance 0
done
--
1 clients
routine r313
done
routine r314
done
--
10 1 Unexpected
routine r3
done
routine r315
done
routine r316
done
routine r317
done
client
r316
client
done
--
3 28 Unexpected
section s319
routine r318
times 1 if s319 try-acquire 
unless s319 try acquire s319
done
client
times 10000 release s319
times 5 advance 5
done
client
done
client
times 8 if s319 acquire s319
done
--
5 1 Unclosed
routine r321
times 6 try disassociate
done
client

--
3 clients
routine r0
done
client
done
client
done
--
4 4 UnknownName
routine r325
done
routine r323
if x0 -1 x3 none 9 7
done
routine r324
times 4 advance 9
done
routine r322
may-run-long
done
client
done
client
done
--
3 clients
event e_234567890abcdefghijklmnopqrstu manual set
semaphore s329 7 7
event e331 manual clear
routine r327
times 1 if s329 reset-event e_234567890abcdefghijklmnopqrstu
done
routine r328
done
client
done
client
unless e_234567890abcdefghijklmnopqrstu set-event e_234567890abcdefghijklmnopqrstu
try set-event e331
done
--
2 clients
routine r333
simple r333 context 18446744073709551615 long
done
client
done
--
2 clients
memory m339
pool p340 max 4294967295 min 0
section s341
wait w342 r337 context 7 in p340 long
routine r337
done
routine r338
done
client
times 9 if s341 try-acquire s341
if s341 acquire s341
done
--
1 1 Unexpected
dZone
routine r6
done
--
5 1 Unexpected
memory m346
routine r345
done
client
m346
client
times 1 advance 9223372036854775807
done
--
3 31 UnknownName
mutex m351
routine r7
unless m351 release-semaphore x3 8
done
routine r3-47
times 1 release m351
done
routine r348
times 1 unless m351 reset-event x0
done
rou1tine r349
times 10000 if m351 advance 7
done
--
2 10 Unexpected
group g353
event e0 g353 set
routine r352
done
--
3 clients
work w356 r354 long
pool p357 max 0 min 4294967295
memory m358
routine r354
may-run-long
done
routine r355
done
client
done
client
done
--
2 clients
memory m364
event e365 manual set
group g366
routine r360
times 1 if e365 try set-event e365
disassociate
done
routine r361
times 9 unless e365 close-group g366
quiet g366
may-run-long
done
routine r362
if e365 try acquire e365
times 3 unless e365 advance 9223372036854775807
done
routine r363
done
client
done
--
2 8 NameTwice
mutex m370
memory m370
routine r367
unless m369 advance 9223372036854775807
times 9 unless m369 advance 7
done
routine r368
if m369 disassociate
done
routine r7
done
client
times 1 unless m369 acquire m369
times 5 unless m369 try-acquire m369
done
--
1 18 Unexpected
semaphore s375 8 1
routine r371
done
routine s375
times 3 unless s375 try-acquire s375
done
routine r373

routine r374
times 10000 if s375 may-run-long
done
client
done
client
times 10000 unless s375 simple r373 priority low persistent
done
--
4 21 UnknownName
mutex m377
routine r376
if m377 try simple r376 priority normal long persistent
times 9 set-maximum x1 4294967295
done
client
if m377 advance 0
done
client
done
client
done
--
2 8 UnknownName
routine r378
unless x0 set-timer x4 78 9 0
done
client
done
client
d#one
--
2 clients
section s380
section s382
group g383
routine r379
done
client
done
--
3 1 Unclosed
memory m385
routine r384

--
3 9 NameTwice
group g389
mutex m390
routine m390
times 10000 unless m390 disassociate
times 1 on-return m390
done
routine r387
try try-acquire m390
times 10000 unless m390 acquire m390
times 3 unless m390 try-acquire m390
close-members g389 keep 5
done
routine r388
times 10000 try on-return m390
done
--
4 clients
memory m394
routine r391
done
routine r7
done
routine r392
try disassociate
done
routine r393
done
client
done
client
done
client
done
--
1 clients
semaphore s397 2147483647 2147483647
work w398 r395 priority high persistent
routine r395
try close w398
simple r395 context 0 priority low long persistent
on-return s397 2147483647
if s397 submit w398
times 1 try if s397 may-run-long
done
routine r396
times 7 close w398
times 4 advance 0
done
--
12 25 Unexpected
semaphore s7 0 2147483647
event e400 manual clear
routine r399
done
client
if e400 advance 9223372036854775807
if e400 advance 2
times 8 if s7 try advance 5
done
client
times 10000 release-semaphore s7 1
times 10000 reset-event 10000
times 5 if s7 try-acquire s7
done
--
4 8 UnknownName
routine r401
done
routine r402
unless x3 try wait x0 keep
done
routine r5
done
routine r403
times 3 advance 0
done
client
done
client
done
--
16 14 Unexpected
event e409 auto set
section s410
pool p411 max 1 min 0
routine r404
times 1 unless s410 disassociate
done
routine r405
done
routine r406
times 1 if s410 release s410
done
routine r407
times 6 unless e409 reset-event e409
times 10000 try-acquire e409
times 1 try unless s410 set-maximum p411 4
set-minimum  1
done
client
times 10000 acquire s410
try -9223372036854775809 e409 try-acquire s410
done
client
release s410
times 2 advance 9223372036854775807
done
client
done
--
2 clients
routine r412
may-run-long
done
routine r413
done
client
done
--
1 15 Unexpected
timer t416 r5 client 7 priority normal long
memory m417
routine r5
done
routine r415
done
client
times 1 advance 9
times 10000 set-timer-ex t416 9223372036854775807 3 8
done
client
done
--
14 1 Unexpected
section s419
section s420
routine r418
done
client
unless s419 release s420
done
client
done
client
times 9 if s420 advance 9223372036854775807
times 1 try advance 8
times 10000 simple r418 context 18446744073709551615 priority high persistent
s419
--
1 16 Unexpected
semaphore s8 3 1
memory m425
routine r421
done
routine r422
advance 3
done
routine r423
if s8 acquire s8
done
routine r424
if s8 release-semaphore s8 5
times 10000 close-members x0 keep 2
times 1 on-return s8
done
client
done
--
1 clients
memory m426
routine r3
done
--
3 clients
routine r5
done
routine r427
done
client
done
client
times 1 advance 1
done
--
2 6 Unexpected
routine r428
done done
--
1 clients
routine r429
done
--
4 clients
routine r430
done
client
done
client
done
client
done
--
5 1 Unexpected
pool p433 max 9
semaphore s434 1 1
routine r431
if s434 set-minimum p433 2
dne
routine r432
times 10000 if s434 close-pool p433
done
client
done
client
times 5 if s434 set-maximum p433 1
times 8 unless s434 set-minimum p433 0
done
--
1 25 Unexpected
semaphore s2 2147483647 1
routine r435
done
routine r436
on-return s2 2
times 6 release-semaphore s2 1
done
--
4 13 Unexpected
wait w440 r439 long
mutex m441
routine r438
times 10000 may-run-longA
if m441 release m441
done
routine r439
simple r438 long persistent group x2 cancel r438
disassociate
18446744073709551615 1 if m441 advance 3
done
client
unless m441 advance 6
try wait w440 keep
unless m441 try acquire m441

client
times 1 if m441 set-wait w440 m441 9223372036854775807
release m441
done
--
2 16 UnknownName
routine r443
times 1 unless x3 set-wait x4 none 9223372036854775807
done
--
9 8 UnknownName
routine r447
disassociate
done
routine r448
done
routine r449
done
routine r450
unless x4 acquire x1
done
client
is-timer-set x2
done
--
7 1 Unexpected
mutex m455
routine r451
unless m455 acquire m455
done
routine r452
acquire m455
m455
routine r453
times 8 if m455 may-run-long
times 1 if m455 on-return m455
done
unless m455 acquire m455
times 5 try if m455 release m455
acquire m455
times 1 if m455 try advance 0
if m455 disassociate disassociate
done
client
unless m455 advance 5
done
--
6 5 Unexpected
routine r456
done
routine r457
done
client
try adv0ance 0
done
--
3 clients
pool p463 max 6
routine r458
done
routine r459
times 1 simple r460 in p463 long
done
routine r460
done
routine r461
times 10000 set-maximum p463 7
set-maximum p463 4294967295
done
client
done
client
done
--
1 4 Unexpected
io i_234567890abcdefghijklmnopqrstuv r465 priority normal long
routine r465
done
client
times 1 set-maximum x1 9
times 7 start-io i_234567890abcdefghijklmnopqrstuv
done
client
try start-io i_234567890abcdefghijklmnopqrstuv
times 10000 complete-next i_234567890abcdefghijklmnopqrstuv 4 9
done
--
3 clients
routine r468
done
routine r7
done
client
done
client
done
--
3 29 Unexpected
timer t473 r470 context 0
semaphore s474 6 2147483647
semaphore s475 0 2147483647 done
routine r470
times 6 is-timer-set t473
done
routine r471
times 10000 if s474 on-return s474 1
# unless s474 set-timer t473 none 4294967295 4294967295
done\r
routine r472
unless s475 acquire s474
done
--
4 1 Unexpected
memory m480
timer t481 r478 context 7
routine r477
dne
routine r478
times 1 try may-run-long
done
routine r479
times 1 set-timer t481 125 8 4294967295
times 10000 disassociate
done
client
unless x0 close-group x0
done
client
times 10000 set-timer-ex t481 -9223372036854775808 7 9
done
r477
done
--
15 1 Unexpected
pool p484 min 5
group g485
routine r482
done
routine r483
try set-maximum p484 3
done
client
times 9 set-minimum p484 6
done
client
close-members g485 cancel 18446744073709551615
done
client
advanc_ 5
done
--
2 1 Unexpected
group g487
times 2 if s489 try-acquire s489
times s489 0 2147483647
routine r486
pool p488
done
client
if s489 close-group g487
unless s489 try-acquire s489
times 10000 try unless s489 set-maximum p488 0
done
client
x release-semaphore s489 7
done
client
done
--
2 1 Unexpected
routine r490
~times 7 close x3
done
--
3 clients
group g492
mutex m_234567890abcdefghijklmnopqrst
routine r491
times 5 simple r491 context 7 priority low persistent group g492
done
client
done
client
times 5 unless m_234567890abcdefghijklmnopqrst try try-acquire m_234567890abcdefghijklmnopqrst
try acquire m_234567890abcdefghijklmnopqrst
times 10000 try-acquire m_234567890abcdefghijklmnopqrst
done
--
2 clients
timer t493 r3
routine r3
done
client
set-timer-ex t493 9223372036854775807 8 0
done
--
1 7 Unexpected
mutex 18446744073709551615
mutex m1
routine r494
times 1 if m1 try try-acquire m496
times 1 if m1 release m1
done
routine r495
done
client
--
1 clients
io i500 r498 priority normal long persistent
routine r498
times 1 wait i500 cancel
done
--
7 16 UnknownName
routine r501
times 1 disassociate
done
client
done
client
times 8 unless x3 cancel-io x1
done
client
done
--
6 1 Unexpected
pool p505
routine r502
done
routine r503
set-minimum p505 8
r502
client
times 2 try set-minimum p505 5
done
client
times 1 try advance 9223372036854775807
done
client
done
--
4 clients
section s507
routine r506
done
client
if s507 simple r506 context 5 persistent
if s507 try release s507
done
client
done
client
times 2 acquire s507
if s507 advance 9223372036854775807
done
--
3 clients
pool p509 max 4294967295 min 4294967295
routine r508
done
client
done
client
done
--
3 11 UnknownName
event e512 auto set
routine r510
on-return s511
times 7 try unless s511 may-run-long
done
client
times 1 unless s511 try-acquire s511
times 1 if e512 try-acquire s511
done
--
4 13 UnknownName
routine r513
done
client
close-group x2
r513
client
r513";
