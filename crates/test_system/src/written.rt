//! Scripts of file calls that write, with all that they print and their exit statuses.

// Files and directories that are made, written, cut and recovered, and regions whose logs or blocks are damaged behind them.
pub const WRITTEN: [(&str, &str, u8); 10] = [
    (
        "format 2 64 1\nrecover 1\ncreate 0 /a\ncreate 0 /b\nwrite 0 /a 0 4096 65\nwrite 0 /b 0 8192 66\n\
             write 0 /a 4096 4096 67\npoke 28720 8\npoke 24664 8\nrecover 2\nfree\nfaults\n",
        "ok\nrecovered inodes 1 free 58 faults 0\nok\nok\nok\nok\nok\nok\nok\n\
             recovered inodes 3 free 54 faults 3\nfree 0 10-33\nfree 1 34-63\nfault B1 block 8 data 2 0\n\
             fault B1 block 8 data 2 1\nfault B1 block 8 data 4 0\n",
        1,
    ),
    (
        "format 1 16 1\nrecover 1\ncreate 0 /a\nwrite 0 /a 0 6 65\nsize 0 /a 3\nsize 0 /a 6\n\
             read /a 0 6\nfree\ntree\n",
        "ok\nrecovered inodes 1 free 12 faults 0\nok\nok\nok\nok\ndata 414141000000\nfree 0 5 7-15\n\
             inode 1 dir mode 493 owner 0 group 0 size 0 links 1 time 0\n  log 3 tail 12352\n  name a 2\n\
             inode 2 file mode 420 owner 0 group 0 size 6 links 1 time 0\n  log 4 tail 16560\n  page 0 1 6\n",
        0,
    ),
    (
        "format 1 8 1\nrecover 1\ncreate 0 /a\nwrite 0 /a 0 8192 65\nwrite 0 /a 8192 1 66\nfree\n\
             write 0 /a 0 1 67\npeek 8472\n",
        "ok\nrecovered inodes 1 free 4 faults 0\nok\nok\nok\nfree 0\nrefused NoSpace\nword 16496\n",
        0,
    ),
    (
        "format 2 64 1\nrecover 1\ncreate 0 /a\nwrite 0 /a 0 5000 65\ntree\nfree\nrecover 8\ntree\n",
        "ok\nrecovered inodes 1 free 58 faults 0\nok\nok\n\
             inode 1 dir mode 493 owner 0 group 0 size 0 links 1 time 0\n  log 5 tail 20544\n  name a 2\n\
             inode 2 file mode 420 owner 0 group 0 size 5000 links 1 time 0\n  log 6 tail 24648\n  page 0 2 7\n\
             free 0 9-33\nfree 1 34-63\nrecovered inodes 2 free 55 faults 0\n\
             inode 1 dir mode 493 owner 0 group 0 size 0 links 1 time 0\n  log 5 tail 20544\n  name a 2\n\
             inode 2 file mode 420 owner 0 group 0 size 5000 links 1 time 0\n  log 6 tail 24648\n  page 0 2 7\n",
        0,
    ),
    (
        "format 2 64 1\nrecover 1\ncreate 0 /a\nwrite 0 /a 0 5000 65\ntree\nfree\nwrite 0 /a 0 4096 66\n\
             tree\nfree\n",
        "ok\nrecovered inodes 1 free 58 faults 0\nok\nok\n\
             inode 1 dir mode 493 owner 0 group 0 size 0 links 1 time 0\n  log 5 tail 20544\n  name a 2\n\
             inode 2 file mode 420 owner 0 group 0 size 5000 links 1 time 0\n  log 6 tail 24648\n  page 0 2 7\n\
             free 0 9-33\nfree 1 34-63\nok\ninode 1 dir mode 493 owner 0 group 0 size 0 links 1 time 0\n  log 5 tail 20544\n  name a 2\n\
             inode 2 file mode 420 owner 0 group 0 size 5000 links 1 time 0\n  log 6 tail 24688\n  page 0 1 9\n  page 1 1 8\n\
             free 0 7 10-33\nfree 1 34-63\n",
        0,
    ),
    (
        "format 2 64 1\nrecover 1\ncreate 0 /a\nwrite 0 /a 0 5000 65\ntree\nfree\npoke 12440 24640\n\
             recover 1\nfaults\ntree\nfree\n",
        "ok\nrecovered inodes 1 free 58 faults 0\nok\nok\n\
             inode 1 dir mode 493 owner 0 group 0 size 0 links 1 time 0\n  log 5 tail 20544\n  name a 2\n\
             inode 2 file mode 420 owner 0 group 0 size 5000 links 1 time 0\n  log 6 tail 24648\n  page 0 2 7\n\
             free 0 9-33\nfree 1 34-63\nok\nrecovered inodes 2 free 57 faults 1\nfault L4 inode 2 at 24608\n\
             inode 1 dir mode 493 owner 0 group 0 size 0 links 1 time 0\n  log 5 tail 20544\n  name a 2\n\
             inode 2 file mode 420 owner 0 group 0 size 0 links 1 time 0\n  log 6 tail 24640\nfree 0 7-33\n\
             free 1 34-63\n",
        1,
    ),
    (
        "format 2 64 1\nrecover 1\nmkdir 0 /d\nmkdir 0 /e\ncreate 0 /d/x\ntree\n",
        "ok\nrecovered inodes 1 free 58 faults 0\nok\nok\nok\n\
             inode 1 dir mode 493 owner 0 group 0 size 0 links 1 time 0\n  log 5 tail 20576\n  name d 2\n  name e 4\n\
             inode 2 dir mode 493 owner 0 group 0 size 0 links 1 time 0\n  log 6 tail 24640\n  name x 6\n\
             inode 4 dir mode 493 owner 0 group 0 size 0 links 1 time 0\n  log 7 tail 28704\n\
             inode 6 file mode 420 owner 0 group 0 size 0 links 1 time 0\n  log 8 tail 32800\n",
        0,
    ),
    (
        "format 1 16 1\nrecover 1\nmkdir 0 /d\ncreate 0 /a\nlink 0 /a /d/b\nunlink 0 /a\n\
             rename 0 /d/b /c\nunlink 0 /c\nrmdir 0 /d\nattr 0 / 448 1 2\ntree\nfree\nrecover 1\n",
        "ok\nrecovered inodes 1 free 12 faults 0\nok\nok\nok\nok\nok\nok\nok\nok\n\
             inode 1 dir mode 448 owner 1 group 2 size 0 links 1 time 0\n  log 3 tail 12544\nfree 0 4-15\n\
             recovered inodes 1 free 12 faults 0\n",
        0,
    ),
    (
        "format 2 64 1\nrecover 1\nmkdir 0 /d\nmkdir 0 /d/e\ncreate 0 /d/e/y\ncreate 0 /a\nlink 0 /a /b\n\
             create 0 /c\ntree\n",
        "ok\nrecovered inodes 1 free 58 faults 0\nok\nok\nok\nok\nok\nok\n\
             inode 1 dir mode 493 owner 0 group 0 size 0 links 1 time 0\n  log 5 tail 20640\n  name a 8\n  name b 8\n  name c 10\n  name d 2\n\
             inode 2 dir mode 493 owner 0 group 0 size 0 links 1 time 0\n  log 6 tail 24640\n  name e 4\n\
             inode 4 dir mode 493 owner 0 group 0 size 0 links 1 time 0\n  log 7 tail 28736\n  name y 6\n\
             inode 6 file mode 420 owner 0 group 0 size 0 links 1 time 0\n  log 8 tail 32800\n\
             inode 8 file mode 420 owner 0 group 0 size 0 links 2 time 0\n  log 9 tail 36920\n\
             inode 10 file mode 420 owner 0 group 0 size 0 links 1 time 0\n  log 10 tail 40992\n",
        0,
    ),
    (
        "format 1 32 1\nrecover 1\nmkdir 0 /d\ncreate 0 /d/a\nlink 0 /d/a /b\nrename 0 /d/a /d/c\n\
             list /\nlist /d\nstat /b\nunlink 0 /b\nunlink 0 /d/c\nrmdir 0 /d\nlist /\nfree\n",
        "ok\nrecovered inodes 1 free 28 faults 0\nok\nok\nok\nok\nb 3\nd 2\nc 3\n\
             stat inode 3 file mode 420 owner 0 group 0 size 0 links 2 time 0\nok\nok\nok\nfree 0 4-31\n",
        0,
    ),
];

// Calls that are stopped, and what a recovery finds then.
pub const STOPPED: [(&str, &str, u8); 7] = [
    (
        "format 2 64 1\nrecover 1\nstop after 0 all\ncreate 0 /a\nrecover 1\n",
        "ok\nrecovered inodes 1 free 58 faults 0\nok\nstopped\nrecovered inodes 1 free 58 faults 0\n",
        0,
    ),
    (
        "format 2 64 1\nrecover 1\ncreate 0 /a\nstop at 12440 all\nwrite 0 /a 0 5000 65\nrecover 2\n\
             free\nstat /a\n",
        "ok\nrecovered inodes 1 free 58 faults 0\nok\nok\nstopped\nrecovered inodes 2 free 57 faults 0\n\
             free 0 7-33\nfree 1 34-63\nstat inode 2 file mode 420 owner 0 group 0 size 0 links 1 time 0\n",
        0,
    ),
    (
        "format 2 64 1\nrecover 1\nstop at 16408 all\ncreate 0 /a\npeek 12416\nrecover 1\npeek 12416\n\
             peek 4096\n",
        "ok\nrecovered inodes 1 free 58 faults 0\nok\nstopped\nword 1\n\
             recovered inodes 1 free 58 faults 0\nword 0\nword 2\n",
        0,
    ),
    (
        "format 2 64 1\nrecover 1\nstop at 16408 none\ncreate 0 /a\npeek 12416\nrecover 1\npeek 12416\n\
             peek 4096\n",
        "ok\nrecovered inodes 1 free 58 faults 0\nok\nstopped\nword 0\n\
             recovered inodes 1 free 58 faults 0\nword 0\nword 2\n",
        0,
    ),
    (
        "format 2 64 1\nrecover 1\nstop at 16408 all\ncreate 0 /a\nstop after 1 all\nrecover 1\n\
             recover 1\n",
        "ok\nrecovered inodes 1 free 58 faults 0\nok\nstopped\nok\nstopped\n\
             recovered inodes 1 free 58 faults 0\n",
        0,
    ),
    (
        "format 2 64 1\nrecover 1\nmkdir 0 /d\nmkdir 0 /e\ncreate 0 /d/x\nstop at 12568 all\n\
             rename 0 /d/x /e/x\npeek 12440\nrecover 1\npeek 12440\npeek 12568\npeek 4096\nlist /d\n",
        "ok\nrecovered inodes 1 free 58 faults 0\nok\nok\nok\nok\nstopped\nword 24672\n\
             recovered inodes 4 free 55 faults 0\nword 24640\nword 28704\nword 8\nx 6\n",
        0,
    ),
    (
        "format 2 64 1\nrecover 1\ncreate 0 /a\nlink 0 /a /b\nstop at 16408 none\nunlink 0 /b\n\
             recover 2\nstat /a\nlist /\nstop after 0 all\nrmdir 0 /\nmkdir 0 /d\nstop at 16408 all\n\
             rmdir 0 /d\nrecover 1\nlist /\n",
        "ok\nrecovered inodes 1 free 58 faults 0\nok\nok\nok\nstopped\n\
             recovered inodes 2 free 57 faults 0\n\
             stat inode 2 file mode 420 owner 0 group 0 size 0 links 2 time 0\na 2\nb 2\nok\n\
             refused BadName\nok\nok\nstopped\nrecovered inodes 3 free 56 faults 0\na 2\nb 2\nd 4\n",
        0,
    ),
];

// Calls without a mount, and the refusals of the calls that write.
pub const REFUSED: [(&str, &str, u8); 6] = [
    (
        "create 0 /a\nmkdir 0 /a\nwrite 0 /a 0 1 65\nsize 0 /a 1\nattr 0 / 448 1 2\n",
        "refused NotMounted\nrefused NotMounted\nrefused NotMounted\nrefused NotMounted\nrefused NotMounted\n",
        0,
    ),
    (
        "format 1 16 1\nrecover 1\ncreate 1 /a\ncreate 0 a\nmkdir 0 /\nmkdir 0 /a/b\ncreate 0 /a\n\
             mkdir 0 /a\nmkdir 0 /a/b\n",
        "ok\nrecovered inodes 1 free 12 faults 0\nrefused BadCpu\nrefused BadName\nrefused BadName\n\
             refused NotFound\nok\nrefused Exists\nrefused NotDirectory\n",
        0,
    ),
    (
        "format 1 16 1\nrecover 1\nwrite 0 / 0 1 65\nsize 0 / 1\nsize 0 /a 1\nattr 0 /a 448 1 2\n\
             create 0 /a\nwrite 0 /a 1073741824 1 65\nsize 0 /a 1073741825\nwrite 0 /a 0 65536 65\n\
             write 0 /a 5 0 65\nstat /a\n",
        "ok\nrecovered inodes 1 free 12 faults 0\nrefused IsDirectory\nrefused IsDirectory\n\
             refused NotFound\nrefused NotFound\nok\nrefused TooLarge\nrefused TooLarge\nrefused NoSpace\n\
             ok\nstat inode 2 file mode 420 owner 0 group 0 size 0 links 1 time 0\n",
        0,
    ),
    (
        "format 1 16 1\nrecover 1\npoke 8344 12288\nrecover 1\ncreate 0 /a\nattr 0 / 448 1 2\n",
        "ok\nrecovered inodes 1 free 12 faults 0\nok\nrecovered inodes 1 free 13 faults 1\n\
             refused ReadOnly\nrefused ReadOnly\n",
        1,
    ),
    (
        "mkdir 0 /d\nlink 0 /a /b\nunlink 0 /a\nrmdir 0 /d\nrename 0 /a /b\n",
        "refused NotMounted\nrefused NotMounted\nrefused NotMounted\nrefused NotMounted\n\
             refused NotMounted\n",
        0,
    ),
    (
        "format 1 32 1\nrecover 1\ncreate 0 /a\nmkdir 0 /d\ncreate 0 /d/x\nlink 1 /a /b\nlink 0 a /\n\
             link 0 / /\nlink 0 /no/a /a/b\nlink 0 /a/b /no/b\nlink 0 / /e\nlink 0 /no /e\nlink 0 /d /e\n\
             link 0 /a /d/x\nunlink 0 /\nunlink 0 /d\nunlink 0 /no\nrmdir 0 /\nrmdir 0 /a\nrmdir 0 /d\n\
             rmdir 0 /no\nrename 0 / /e\nrename 0 /a /\nrename 0 /no /e\nrename 0 /no /d\nrename 0 /d /d/e\n\
             rename 0 /d /d/x\nrename 0 /a /a\nrename 0 /a /a/b\nlist /\nlist /d\n",
        "ok\nrecovered inodes 1 free 28 faults 0\nok\nok\nok\nrefused BadCpu\nrefused BadName\n\
             refused BadName\nrefused NotFound\nrefused NotDirectory\nrefused IsDirectory\nrefused NotFound\n\
             refused IsDirectory\nrefused Exists\nrefused BadName\nrefused IsDirectory\nrefused NotFound\n\
             refused BadName\nrefused NotDirectory\nrefused NotEmpty\nrefused NotFound\nrefused BadName\n\
             refused BadName\nrefused NotFound\nrefused NotFound\nrefused IntoItself\nrefused IntoItself\n\
             refused Exists\nrefused NotDirectory\na 2\nd 3\nx 4\n",
        0,
    ),
];
