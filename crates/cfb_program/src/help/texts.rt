//! What `help WORD` prints. `docs/PROGRAM.md` repeats each text word for word.

pub(super) const LS: &str = "cfbtool ls [-l] FILE [PATH]

A line for each storage (d) and stream (f): kind, length, path. With PATH it
starts there. The length of the root is that of the mini stream, which holds
all streams below 4096 bytes. -l: kind, length, class id, state bits, created,
modified, path, with tabs; '-' is not set. On a terminal and with -l a control
character in a name is shown as \\u0005.

Example: cfbtool ls a.cfb
d 64 /
d 0 /docs
f 6 /docs/note

Fails if FILE is no compound file, or nothing is at PATH.
";

pub(super) const TREE: &str = "cfbtool tree FILE [PATH]

The storages and streams as a tree, with the length of each stream in bytes,
and how many there are. With PATH it starts there.
A control character is shown as \\u0005.

Example: cfbtool tree a.cfb
/
└── docs/
    └── note  6

1 storages, 1 streams, 6 bytes

Fails if FILE is no compound file, or nothing is at PATH.
";

pub(super) const INFO: &str = "cfbtool info FILE

Version and length, what sectors, mini sectors and directory entries are used
for, whether strict opening takes the file, and whether it is sound. If not
(status 1), up to 20 reasons: what is used twice, which chains break, and which
streams cannot be read to their ends.

Example: cfbtool info a.cfb | tail -n 2
strict            yes
sound             yes

Fails if FILE is no compound file.
";

pub(super) const MAP: &str = "cfbtool map FILE

A line for each run of sectors: the first and the last, a tab, and what has
them: a part of the file, or the stream at a path. 'free' says that they are
marked as free, 'unused' that nothing has them though they are not.
What is used twice has both users, with a tab between.

Example: cfbtool map a.cfb
0\tthe FAT
1\tthe directory
2\tthe MiniFAT
3\tthe mini stream
Fails if FILE is no compound file.
";

pub(super) const CHECK: &str = "cfbtool check FILE [strict]

'version V sound' (status 0) or 'version V not sound' (1): a file is sound if no
sector is used twice, every chain ends and every stream can be read.
'strict' fails also if the file breaks a rule that does no harm.

Example: cfbtool check a.cfb
version 3 sound

Fails if FILE is no compound file.
";

pub(super) const CAT: &str = "cfbtool cat FILE PATH

The bytes of the stream at PATH. If the stream cannot be read whole, none.
A terminal gets text only: UTF-8, and of the control characters tabs and
newlines.

Example: cfbtool cat a.cfb /docs/note
hello

Fails if no stream is at PATH, or it cannot be read whole: it says how many of
its bytes can be read. If the disk fails midway, the first bytes are printed.
";

pub(super) const EXTRACT: &str = "cfbtool extract FILE [PATH] DIR

Makes the folder DIR: a folder for each storage, a file for each stream, or what
is at PATH. In names control characters and \" * / : < > ? \\ | % become % and two
hexadecimal digits (%u and four above U+00FF); an empty name and a first '.' or
'-' get a '%' in front.

Example: cfbtool extract a.cfb out && cat out/docs/note
hello

Fails if DIR is there. Of a stream that cannot be read whole it writes the first
bytes, says so and goes on; the status is 1.
";

pub(super) const DUMP: &str = "cfbtool dump FILE

Lines of 'run' that make the same tree in an empty file: paths, class ids,
state bits, timestamps, and all bytes in hexadecimal. 'run' skips the first
line. A control character is shown as \\u0005.

Example: cfbtool dump a.cfb
# cfbtool dump, version 3
mkdir\t/docs\t0
put\t/docs/note\t68656c6c6f0a

Fails if FILE is no compound file, no PATH leads to a storage or stream, or a
stream cannot be read whole (some lines may be printed then).
";

pub(super) const CREATE: &str = "cfbtool create 3|4 FILE

An empty file of version 3 (sectors of 512 bytes, streams below 4 GiB) or 4
(sectors of 4096 bytes).
If FILE is there, it is EMPTIED: the new file gets its name and its mode.

Example: cfbtool create 3 a.cfb && cfbtool ls a.cfb
d 0 /

Fails if FILE cannot be written, or another program is changing it.
";

pub(super) const PUT: &str = "cfbtool put FILE PATH [FROM]

Makes the stream at PATH, or replaces its bytes.
The bytes are those of the file FROM, or of standard input.
The first 65536 of them are read before FILE is opened.

Example: echo hello | cfbtool put a.cfb /docs/note

Fails if FROM cannot be read, the storage above PATH is missing, or a storage is
at PATH.
";

pub(super) const MKDIR: &str = "cfbtool mkdir FILE PATH [SECS]

Makes a storage at PATH.
The storage above it must be there.
SECS is its creation time, in seconds since 1970 (UTC); 0 if not given.

Example: cfbtool mkdir a.cfb /docs && cfbtool ls a.cfb /docs
d 0 /docs

Fails if something is at PATH, or the storage above it is missing.
";

pub(super) const MKDIRS: &str = "cfbtool mkdirs FILE PATH [SECS]

Makes a storage at PATH, and those above it that are missing.
A storage that is there stays as it is.
SECS is their creation time, in seconds since 1970 (UTC); 0 if not given.

Example: cfbtool mkdirs a.cfb /p/q && cfbtool ls a.cfb /p
d 0 /p
d 0 /p/q

Fails if a stream is at PATH or above it.
";

pub(super) const RMDIR: &str = "cfbtool rmdir FILE PATH

Removes the empty storage at PATH.
The file keeps its length.
'cfbtool compact' makes a shorter copy.

Example: cfbtool rmdir a.cfb /docs
cfbtool: a.cfb: /docs: the storage is not empty

Fails if no storage is at PATH, or it is not empty, or it is the root.
";

pub(super) const RMTREE: &str = "cfbtool rmtree FILE PATH

Removes what is at PATH with all that is in it; of the root all that is in it.
The file keeps its length.
'cfbtool compact' makes a shorter copy.

Example: cfbtool rmtree a.cfb /docs && cfbtool ls a.cfb
d 0 /

Fails if nothing is at PATH.
";

pub(super) const RM: &str = "cfbtool rm FILE PATH

Removes the stream at PATH.
The file keeps its length.
'cfbtool compact' makes a shorter copy.

Example: cfbtool rm a.cfb /docs/note && cfbtool ls a.cfb
d 0 /
d 0 /docs

Fails if no stream is at PATH.
";

pub(super) const TOUCH: &str = "cfbtool touch FILE PATH SECS

Sets the modification time of the storage at PATH.
SECS are seconds since 1970 (UTC), below zero for earlier times.
A stream has no such time, and stays as it is.

Example: cfbtool touch a.cfb /docs 1000000000

Fails if nothing is at PATH.
";

pub(super) const BITS: &str = "cfbtool bits FILE PATH N

Sets the state bits of the storage or stream at PATH.
N is a number below 4294967296.
'cfbtool ls -l' shows it in hexadecimal.

Example: cfbtool bits a.cfb /docs/note 255

Fails if nothing is at PATH.
";

pub(super) const LEN: &str = "cfbtool len FILE PATH N

Sets the length of the stream at PATH to N bytes.
A shorter stream loses its last bytes.
A longer one gets zeros.

Example: cfbtool len a.cfb /docs/note 4 && cfbtool ls a.cfb /docs/note
f 4 /docs/note

Fails if no stream is at PATH, or the version allows no such length.
";

pub(super) const CLSID: &str = "cfbtool clsid FILE PATH UUID

Sets the class id of the storage at PATH.
UUID has 32 hexadecimal digits in five groups.
'cfbtool ls -l' shows it.

Example: cfbtool clsid a.cfb /docs 00020906-0000-0000-c000-000000000046

Fails if no storage is at PATH.
";

pub(super) const ADD: &str = "cfbtool add FILE PATH

Writes the bytes of standard input behind the stream at PATH.
They are read before FILE is opened.
The stream must be there.

Example: echo you | cfbtool add a.cfb /docs/note; cfbtool cat a.cfb /docs/note
hello
you

Fails if no stream is at PATH.
";

pub(super) const RUN: &str = "cfbtool run [-e] FILE

Does lines of standard input in turn: a word, a path and an argument, with tabs
between. Words: mkdir mkdirs rmdir rmtree rm touch bits len clsid created
modified put add; put and add take hexadecimal bytes. For each line 'ok' or E
and the number of the error; -e explains errors. E1 nothing there, E2 there
already, E3 wrong path or argument, E4 damaged, E5 file, E6 memory, E7 full,
E8 not sound, E9 failed earlier.

Example: printf 'rm\\t/none\\nrm\\t/docs/note\\n' | cfbtool run a.cfb
E1
ok

Fails, with nothing done, if a line is wrong (status 2).
";

pub(super) const COMPACT: &str = "cfbtool compact FILE NEW

Copies all storages and streams into the new file NEW.
NEW has no free sectors.
FILE is only read.

Example: cfbtool compact a.cfb b.cfb && cfbtool check b.cfb strict
version 3 sound

Fails if NEW is there, or a stream cannot be read whole: it says which one, and
how many of its bytes can be read. What is at NEW then is no copy: remove it.
";

pub(super) const SALVAGE: &str = "cfbtool salvage FILE NEW

Copies what can be read of FILE into the new file NEW: each storage, and of each
stream the bytes up to the first that cannot be read. FILE is only read.
Of a file that was cut short it reads what is left. NEW gets its name last.
'cut' GOT OF PATH, 'lost' 0 OF PATH: GOT of OF bytes of a stream were read.
'missing' N objects or more: their entries are cut off, so no line has a name.

Example: cfbtool salvage a.cfb b.cfb
kept\t1 of 1 streams\t6 of 6 bytes

Fails if NEW is there, or nothing can be read (status 1), and has status 1 where
not all is kept, or FILE was cut short.
";
