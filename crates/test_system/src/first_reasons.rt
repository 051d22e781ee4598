//! Scripts of file calls that are refused for the first reason that applies, with all that they print and their exit statuses.

// New names, links, moves, removals, files and upgrades.
pub const FIRST_REASONS: [(&str, &str, u8); 6] = [
    (
        "format 1 32 1\nrecover 1\nmkdir 0 /d\nmkdir 0 /d/e\ncreate 0 /d/x\ncreate 0 /a\ncreate 1 a\n\
         create 0 a\nmkdir 0 /\ncreate 0 /n/b\nmkdir 0 /a/b\nmkdir 0 /n/a/b\ncreate 0 /a/n/b\ncreate 0 /d\n\
         mkdir 0 /a\n",
        "ok\nrecovered inodes 1 free 28 faults 0\nok\nok\nok\nok\nrefused BadCpu\nrefused BadName\n\
         refused BadName\nrefused NotFound\nrefused NotDirectory\nrefused NotFound\nrefused NotDirectory\n\
         refused Exists\nrefused Exists\n",
        0,
    ),
    (
        "format 1 32 1\nrecover 1\nmkdir 0 /d\nmkdir 0 /d/e\ncreate 0 /d/x\ncreate 0 /a\nlink 1 a b\n\
         link 0 a /n/b\nlink 0 /n/a b\nlink 0 /a /\nlink 0 /n/a /a/b\nlink 0 /a/b /n/a\nlink 0 /b /a/b\n\
         link 0 /b /d\nlink 0 / /d\nlink 0 /d /d\nlink 0 /a /d\nlink 0 /a /a\n",
        "ok\nrecovered inodes 1 free 28 faults 0\nok\nok\nok\nok\nrefused BadCpu\nrefused BadName\n\
         refused BadName\nrefused BadName\nrefused NotFound\nrefused NotDirectory\nrefused NotDirectory\n\
         refused NotFound\nrefused IsDirectory\nrefused IsDirectory\nrefused Exists\nrefused Exists\n",
        0,
    ),
    (
        "format 1 32 1\nrecover 1\nmkdir 0 /d\nmkdir 0 /d/e\ncreate 0 /d/x\ncreate 0 /a\nrename 1 a b\n\
         rename 0 / /n/b\nrename 0 /n/a b\nrename 0 /a /\nrename 0 /a/b /n/a\nrename 0 /n/a /a/b\n\
         rename 0 /b /a/b\nrename 0 /b /a\nrename 0 /d /d/e\nrename 0 /d /d/f\nrename 0 /d /d/e/f\n\
         rename 0 /d /d/x/f\nrename 0 /d /d\nrename 0 /d /a\nrename 0 /a /d/x\nrename 0 /a /a\n",
        "ok\nrecovered inodes 1 free 28 faults 0\nok\nok\nok\nok\nrefused BadCpu\nrefused BadName\n\
         refused BadName\nrefused BadName\nrefused NotDirectory\nrefused NotFound\nrefused NotDirectory\n\
         refused NotFound\nrefused IntoItself\nrefused IntoItself\nrefused IntoItself\nrefused NotDirectory\n\
         refused Exists\nrefused Exists\nrefused Exists\nrefused Exists\n",
        0,
    ),
    (
        "format 1 32 1\nrecover 1\nmkdir 0 /d\nmkdir 0 /d/e\ncreate 0 /d/x\ncreate 0 /a\nunlink 1 a\n\
         unlink 0 /\nunlink 0 /n/a\nunlink 0 /a/b\nunlink 0 /b\nunlink 0 /d\nrmdir 1 a\nrmdir 0 /\n\
         rmdir 0 /n/a\nrmdir 0 /a/b\nrmdir 0 /b\nrmdir 0 /a\nrmdir 0 /d\n",
        "ok\nrecovered inodes 1 free 28 faults 0\nok\nok\nok\nok\nrefused BadCpu\nrefused BadName\n\
         refused NotFound\nrefused NotDirectory\nrefused NotFound\nrefused IsDirectory\nrefused BadCpu\n\
         refused BadName\nrefused NotFound\nrefused NotDirectory\nrefused NotFound\nrefused NotDirectory\n\
         refused NotEmpty\n",
        0,
    ),
    (
        "format 1 32 1\nrecover 1\nmkdir 0 /d\nmkdir 0 /d/e\ncreate 0 /d/x\ncreate 0 /a\nattr 1 a 448 1 2\n\
         attr 18446744073709551615 /a 448 1 2\nattr 0 a 448 1 2\nattr 0 /n/a 448 1 2\nattr 0 /a/b 448 1 2\n\
         attr 0 /b 448 1 2\nwrite 0 /b 0 1 65\nwrite 0 /d 1073741824 1 65\nwrite 0 /a 1073741824 1 65\n\
         write 0 /a 1073741825 0 65\nwrite 0 /a 1073741824 0 65\nwrite 0 /a 0 131072 65\nsize 0 /b 1\n\
         size 0 / 1073741825\nsize 0 /a 1073741825\n",
        "ok\nrecovered inodes 1 free 28 faults 0\nok\nok\nok\nok\nrefused BadCpu\nrefused BadCpu\n\
         refused BadName\nrefused NotFound\nrefused NotDirectory\nrefused NotFound\nrefused NotFound\n\
         refused IsDirectory\nrefused TooLarge\nrefused TooLarge\nok\nrefused NoSpace\nrefused NotFound\n\
         refused IsDirectory\nrefused TooLarge\n",
        0,
    ),
    (
        "format 1 32 1\nrecover 1\nmkdir 0 /d\nmkdir 0 /d/e\ncreate 0 /d/x\ncreate 0 /a\nupgrade\nupgrade\n\
         write 0 /a 0 5000 65\nrename 0 /a /d/a\nunlink 0 /d/x\nupgrade\n",
        "ok\nrecovered inodes 1 free 28 faults 0\nok\nok\nok\nok\nok\nrefused IsVersion2\nok\nok\nok\n\
         refused IsVersion2\n",
        0,
    ),
];
