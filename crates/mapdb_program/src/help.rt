//! The texts of help.

/// The version, and the kit that it is proved with. Six files name the version (tests/examples.sh).
pub const VERSION: &str = "1.0.0 (rattle-kit-13)";

/// What the program does, in a line.
pub const ABOUT: &str = "Runs scripts on a replicated L4 X.2 mapping database.";

/// What `run` does, in a line.
pub const RUN_ABOUT: &str =
    "Reads a script from standard input and writes the replies to standard output";

/// What `threads` does, in a line.
pub const THREADS_ABOUT: &str =
    "Runs the commands of a script, those of each processor in threads of their own";

/// What the capacity is.
pub const CAPACITY_HELP: &str = "How many messages a link between two processors holds, 1 to 1024";

/// Why a capacity is refused.
pub const NO_CAPACITY: &str = "the capacity of a link is a number from 1 to 1024";

/// Why a space and an address are refused.
pub const NO_PAGE: &str = "\
SPACE is a decimal number up to 65535, or NUMBER.VERSION with a version up to 4294967295; \
ADDRESS is 1 to 16 hexadecimal digits without a prefix, and below 2^48";

/// What `picture` does, in a line.
pub const PICTURE_ABOUT: &str =
    "Reads a snapshot from standard input and writes a picture of it as Graphviz text";

/// What `explain` does, in a line.
pub const EXPLAIN_ABOUT: &str =
    "Reads a snapshot from standard input and tells why a page of a space has what it has";

/// What the space is.
pub const SPACE_HELP: &str = "A space, as in a script: its number, or NUMBER.VERSION";

/// What the address is.
pub const ADDRESS_HELP: &str = "An address, as in a script: in hexadecimal without a prefix";

/// How `picture` is called.
pub const PICTURE_USAGE: &str = "l4map picture < SNAPSHOT";

/// How `explain` is called.
pub const EXPLAIN_USAGE: &str = "l4map explain SPACE ADDRESS < SNAPSHOT";

/// What a picture shows, and the statuses.
pub const PICTURE_HELP: &str = "\
The picture has a box for each space, and in it the records of the space: the name, the place and
the rights that it names, the page of the parent that its first page comes from, the rights and the
frame that it has at its first page, and what is revoked of it, from page to page. A record is
dashed whose parent is not held, and so is that parent; the box of a space that has ended is grey.
The snapshot is what `save` writes behind `snapshot `.

Example:
  $ l4map picture < snapshot.json | dot -Tsvg > snapshot.svg

Status: 0 done, 1 the input is no snapshot (the errors say why), 2 command line refused or
help asked for, 3 read or write failed, 4 out of memory.";

/// What an explanation tells, and the statuses.
pub const EXPLAIN_HELP: &str = "\
For each record of the space that holds the page, the chain from it to its frame is told, a line for
each record of the chain: its space, the page, the rights that it names, what is revoked of them
there, and the page that this one comes from. Where a record is not held, or does not hold its page,
the chain ends. A last line has what comes of it.

Example:
  $ echo '{\"cuts\":[],\"ended\":[],\"records\":[[1,0,1,0,64,14,0,0,16,6]],\"version\":3}' > p.json
  $ l4map explain 1 41000 < p.json
  record 1.0
    1.0 space 1 page 00041 names rw- revoked --- from 0.0 page 00011
    0.0 space 0 page 00011 revoked ---
  rights rw- frame 00011

Status: 0 done, 1 the input is no snapshot (the errors say why), 2 command line refused or
help asked for, 3 read or write failed, 4 out of memory.";

/// What is written for a script in threads, and the statuses.
pub const THREADS_HELP: &str = "\
The script has the lines processors (1 to 4), map, words, unmap and end, as of `l4map run`.
Each processor runs its commands while it takes what the others issue. At the end there is a line
for each, with how many commands it had and how many operations it issued, and then `same yes` where
all copies hold the same. The errors say `run fault full` where a copy would hold more than 65,536
operations with what others issue, and `run fault journal-full` where a processor's journal would
have more than 1,048,576 entries, one for each command and each operation that it issues or takes.

Example:
  $ printf 'processors 2\\nmap 0 0 10000/12:rw- 0 1 20000/12\\nend 1 9\\n' | l4map threads
  processor 0 commands 1 issued 1
  processor 1 commands 1 issued 1
  same yes

Status: 0 done, 1 a faulty line (the output says which) or a failed run, 2 command line refused or
help asked for, 3 read or write failed, 4 out of memory.";

/// How `run` is called.
pub const RUN_USAGE: &str = "l4map run < SCRIPT";

/// How `threads` is called.
pub const THREADS_USAGE: &str = "l4map threads [--capacity N] < SCRIPT";

/// How the program is called. A refused command line shows it too.
pub const USAGE: &str = "\
l4map run < SCRIPT
       l4map threads [--capacity N] < SCRIPT
       l4map picture < SNAPSHOT
       l4map explain SPACE ADDRESS < SNAPSHOT";

/// The lines of a script, an example, and the statuses.
pub const SCRIPT_HELP: &str = "\
A script is a list of commands and queries for a cluster of processors, one a line. Each processor
holds a copy of the mapping database. Every command and query but `processors` has a reply.

Lines of a script:
  processors N               makes a cluster of N processors (1 to 64); the first command, once
  map P S SEND BASE R FPAGE  at processor P, space S maps the fpage SEND into the receive window
                             FPAGE of space R; BASE is the send base
  words P S FIRST SECOND R WINDOW
                             as map, by the two words of a map item and the word of a window
  unmap P S SEND MODE        at processor P, space S takes SEND's rights from all that received
                             its pages; MODE is keep, or flush for space S too
  end P S                    at processor P, space S ends, for good; its number is used again
                             under another version
  rights P S ADDR            asks for the frames and the rights of space S at address ADDR
  served P S ADDR            asks for the frame that the page at ADDR of space S is served from
  tree S ADDR                asks what the sequential tree of processor 0's accepted commands has
                             there
  version P NUMBER           asks for the least version of the space's number that has not ended
                             in P's copy
  send P I J                 makes a message of the operations of P's copy, in order of arrival,
                             from the mark I on and up to before the mark J
  deliver M P                brings message M to processor P, whose copy takes its operations
  merge P Q                  has P's copy take all that Q's copy holds
  same P Q                   asks whether both copies hold the same
  covers P Q                 asks whether P's copy holds all that Q's copy holds
  save P                     asks for the snapshot of P's copy, as JSON
  load P TEXT                has P's copy take what a snapshot says
  table P                    asks for the translation table of P's copy
  # ...                      a comment

Words of a line:
  N, P, Q     decimal; processors count from 0
  S, R        a space: its number, decimal, or NUMBER.VERSION where the version is not 0; space 0
              stands for physical memory
  NUMBER      the number of a space alone, decimal
  I, J, M     decimal; marks and messages count from 0
  BASE, ADDR  an address, in hexadecimal without a prefix
  FPAGE       ADDR/ORDER, the 2^ORDER bytes from ADDR on, with ORDER decimal; or `all`, or `nil`
  FIRST, SECOND, WINDOW
              a word of the kernel, in hexadecimal without a prefix
  SEND        FPAGE:RIGHTS, the rights as rwx with - for each one that is missing
  TEXT        a snapshot, as save writes it behind `snapshot `, to the end of the line

A reply tells a page or a frame by its number, its address divided by 4096, in hexadecimal.

Example, where the window is larger than the fpage and the send base says where in it:
  $ printf 'processors 1\\nmap 0 0 10000/14:rw- 8000 1 40000/16\\nrights 0 1 48000\\n' | l4map run
  records 1.0
  rights 00010:rw-

Status: 0 done, 1 a faulty line (the output says which), 2 command line refused or help asked for,
3 read or write failed, 4 out of memory.";
