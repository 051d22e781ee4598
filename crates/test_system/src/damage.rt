//! Scripts on damaged regions, with all that they print and their exit statuses.

// Logs that are damaged, and regions that are cut.
pub const LOGS: [(&str, &str, u8); 9] = [
    (
        "format 1 16 1\nrecover 1\nreport\ncut 65535\nrecover 1\n",
        "ok\nrecovered inodes 1 free 12 faults 0\n\
             region version 1 cpus 1 blocks 16 tables 1 state 0\n\
             inode 1 dir mode 493 owner 0 group 0 size 0 links 1 time 0\n  log 3 tail 12320\n\
             free 0 4-15\nno faults\nok\nrefused S1\n",
        2,
    ),
    (
        "format 1 16 1\ncut 32768\nrecover 1\n",
        "ok\nok\nrefused S5\n",
        2,
    ),
    (
        "format 1 16 1\nrecover 1\nreport\ncut 0\nrecover 1\n",
        "ok\nrecovered inodes 1 free 12 faults 0\n\
             region version 1 cpus 1 blocks 16 tables 1 state 0\n\
             inode 1 dir mode 493 owner 0 group 0 size 0 links 1 time 0\n  log 3 tail 12320\n\
             free 0 4-15\nno faults\nok\nrefused S1\n",
        2,
    ),
    (
        "format 1 16 1\npoke 8344 12288\nrecover 1\nreport\n",
        "ok\nok\nrecovered inodes 1 free 13 faults 1\n\
             region version 1 cpus 1 blocks 16 tables 1 state 0\n\
             inode 1 dir mode 0 owner 0 group 0 size 0 links 1 time 0\n  log tail 12288\nfree 0 3-15\n\
             fault I3 inode 1\n",
        1,
    ),
    (
        "format 1 16 1\nrecover 1\nreport\npoke 0 0\npoke 16 0\nrecover 1\npeek 16\n",
        "ok\nrecovered inodes 1 free 12 faults 0\n\
             region version 1 cpus 1 blocks 16 tables 1 state 0\n\
             inode 1 dir mode 493 owner 0 group 0 size 0 links 1 time 0\n  log 3 tail 12320\n\
             free 0 4-15\nno faults\nok\nok\nrefused S2\nword 0\n",
        2,
    ),
    (
        "format 1 16 1\npoke 12320 524288\npoke 8344 12328\nrecover 1\nfaults\n",
        "ok\nok\nok\nrecovered inodes 1 free 12 faults 1\nfault L4 inode 1 at 12320\n",
        1,
    ),
    (
        "format 1 16 1\npoke 12320 524288\npoke 16352 16384\npoke 16384 524288\npoke 20448 12288\n\
             poke 8344 20488\nrecover 1\nreport\n",
        "ok\nok\nok\nok\nok\nok\nrecovered inodes 1 free 11 faults 1\n\
             region version 1 cpus 1 blocks 16 tables 1 state 0\n\
             inode 1 dir mode 493 owner 0 group 0 size 0 links 1 time 0\n  log 3 4 tail 20488\n\
             free 0 5-15\nfault L2 inode 1 at 20448\n",
        1,
    ),
    (
        "format 1 16 1\npoke 12320 524288\npoke 16352 16384\npoke 16384 524288\npoke 20448 12288\n\
             poke 8344 20488\nrecover 65\n",
        "ok\nok\nok\nok\nok\nok\nrefused Workers\n",
        2,
    ),
    (
        "format 1 16 1\npoke 8344 16352\nrecover 1\nfaults\n",
        "ok\nok\nrecovered inodes 1 free 12 faults 1\nfault L3 inode 1 at 12320\n",
        1,
    ),
];

// Journals with pending records.
pub const JOURNALS: [(&str, &str, u8); 3] = [
    (
        "format 1 16 1\nrecover 1\nreport\npoke 4104 1\npoke 4160 4096\nrecover 1\nfaults\n\
             recover 1\npeek 4096\n",
        "ok\nrecovered inodes 1 free 12 faults 0\n\
             region version 1 cpus 1 blocks 16 tables 1 state 0\n\
             inode 1 dir mode 493 owner 0 group 0 size 0 links 1 time 0\n  log 3 tail 12320\n\
             free 0 4-15\nno faults\nok\nok\nrecovered inodes 1 free 12 faults 1\n\
             fault J2 cpu 0 record 0\nrecovered inodes 1 free 12 faults 0\nword 1\n",
        0,
    ),
    (
        "format 1 16 1\nrecover 1\nreport\npoke 4096 252\nrecover 1\nfaults\n",
        "ok\nrecovered inodes 1 free 12 faults 0\n\
             region version 1 cpus 1 blocks 16 tables 1 state 0\n\
             inode 1 dir mode 493 owner 0 group 0 size 0 links 1 time 0\n  log 3 tail 12320\n\
             free 0 4-15\nno faults\nok\nrecovered inodes 1 free 12 faults 1\nfault J1 cpu 0\n",
        1,
    ),
    (
        "format 1 16 1\npoke 4096 250\npoke 4104 1\npoke 8160 8344\npoke 8168 12320\npoke 8176 8344\n\
             poke 8184 12328\npoke 4160 8336\npoke 4168 12288\npoke 8344 12344\nrecover 1\npeek 8344\n\
             peek 4096\n",
        "ok\nok\nok\nok\nok\nok\nok\nok\nok\nok\nrecovered inodes 1 free 12 faults 0\nword 12320\n\
             word 1\n",
        0,
    ),
];

// A table that goes on in two blocks: sound; with a ring; through the page of a log; with a pending record of its slot and
// one of its link; with a wrong link.
pub const CHAINS: [(&str, &str, u8); 1] = [(
    "format 1 16 1\nrecover 1\nupgrade\npoke 4112 40960\npoke 40960 36864\npoke 41088 1\n\
             poke 41096 1\npoke 41104 45056\npoke 41112 45088\npoke 45056 1803888361474\n\
             poke 12320 4297064707\npoke 12328 32\npoke 12336 5\npoke 12344 97\npoke 8344 12352\n\
             recover 64\nreport\npoke 36864 40960\nreplay 3 2 1 0 2 1 0\nfaults\nfree\npoke 40960 12288\n\
             recover 8\nfaults\nfree\npoke 40960 36864\npoke 36864 0\npoke 4104 2\npoke 4160 41112\n\
             poke 4168 45088\npoke 4176 40960\npoke 41112 8\nrecover 1\nfaults\npeek 41112\npeek 40960\n\
             poke 4112 40961\nrecover 2\nreport\n",
    "ok\nrecovered inodes 1 free 12 faults 0\nok\nok\nok\nok\nok\nok\nok\nok\nok\nok\nok\nok\n\
             ok\nrecovered inodes 2 free 9 faults 0\nregion version 2 cpus 1 blocks 16 tables 1 state 0\n\
             inode 1 dir mode 493 owner 0 group 0 size 0 links 1 time 5\n  log 3 tail 12352\n  name a 32\n\
             inode 32 file mode 420 owner 0 group 0 size 0 links 1 time 0\n  log 11 tail 45088\n\
             free 0 4-8 12-15\nno faults\nok\nrecovered inodes 2 free 9 faults 1\n\
             fault H2 cpu 0 at 36864\nfree 0 4-8 12-15\nok\nrecovered inodes 2 free 10 faults 3\n\
             fault H1 cpu 0 at 12288\nfault B1 block 3 table 0 1\nfault B1 block 3 log 1 0\n\
             free 0 4-9 12-15\nok\nok\nok\nok\nok\nok\nok\nrecovered inodes 2 free 9 faults 1\n\
             fault J2 cpu 0 record 1\nword 45088\nword 36864\nok\nrecovered inodes 1 free 12 faults 2\n\
             region version 2 cpus 1 blocks 16 tables 1 state 0\n\
             inode 1 dir mode 493 owner 0 group 0 size 0 links 1 time 5\n  log 3 tail 12352\n  name a 32\n\
             free 0 4-15\nfault H1 cpu 0 at 4112\nfault C1 inode 1 at 12320\n",
    1,
)];

// Names and owners that contradict one another.
pub const NAMES: [(&str, &str, u8); 5] = [
    (
        "format 1 16 1\npoke 12320 4297064707\npoke 12328 2\npoke 12336 5\npoke 12344 97\n\
             poke 8344 12352\nrecover 1\ntree\n",
        "ok\nok\nok\nok\nok\nok\nrecovered inodes 1 free 12 faults 1\n\
             inode 1 dir mode 493 owner 0 group 0 size 0 links 1 time 5\n  log 3 tail 12352\n  name a 2\n",
        1,
    ),
    (
        "format 1 16 1\npoke 12320 4297064707\npoke 12328 2\npoke 12336 5\npoke 12344 97\n\
             poke 8344 12352\nrecover 1\ntree\nfaults\n",
        "ok\nok\nok\nok\nok\nok\nrecovered inodes 1 free 12 faults 1\n\
             inode 1 dir mode 493 owner 0 group 0 size 0 links 1 time 5\n  log 3 tail 12352\n  name a 2\n\
             fault C1 inode 1 at 12320\n",
        1,
    ),
    (
        "format 1 16 1\npoke 8320 0\nrecover 1\nreport\n",
        "ok\nok\nrecovered inodes 0 free 13 faults 1\n\
             region version 1 cpus 1 blocks 16 tables 1 state 0\nfree 0 3-15\nfault C5\n",
        1,
    ),
    (
        "format 1 16 1\npoke 8456 2\npoke 8464 12288\npoke 8472 12320\npoke 8448 1\nrecover 1\n\
             faults\n",
        "ok\nok\nok\nok\nok\nrecovered inodes 2 free 12 faults 4\nfault C2 inode 2\n\
             fault C4 inode 2\nfault B1 block 3 log 1 0\nfault B1 block 3 log 2 0\n",
        1,
    ),
    (
        "format 1 16 1\npoke 8320 2\nrecover 1\nfaults\n",
        "ok\nok\nrecovered inodes 0 free 13 faults 2\nfault I1 inode 1\nfault C5\n",
        1,
    ),
];

// A damaged log by more workers than tickets, and by a written schedule.
pub const REPLAYED: [(&str, &str, u8); 2] = [
    (
        "format 1 16 1\npoke 12320 524288\npoke 16352 16384\npoke 16384 524288\npoke 20448 12288\n\
             poke 8344 20488\nrecover 64\nreport\n",
        "ok\nok\nok\nok\nok\nok\nrecovered inodes 1 free 11 faults 1\n\
             region version 1 cpus 1 blocks 16 tables 1 state 0\n\
             inode 1 dir mode 493 owner 0 group 0 size 0 links 1 time 0\n  log 3 4 tail 20488\n\
             free 0 5-15\nfault L2 inode 1 at 20448\n",
        1,
    ),
    (
        "format 1 16 1\npoke 12320 524288\npoke 16352 16384\npoke 16384 524288\npoke 20448 12288\n\
             poke 8344 20488\nreplay 2 1 1 0 0\nreport\n",
        "ok\nok\nok\nok\nok\nok\nrecovered inodes 1 free 11 faults 1\n\
             region version 1 cpus 1 blocks 16 tables 1 state 0\n\
             inode 1 dir mode 493 owner 0 group 0 size 0 links 1 time 0\n  log 3 4 tail 20488\n\
             free 0 5-15\nfault L2 inode 1 at 20448\n",
        1,
    ),
];
