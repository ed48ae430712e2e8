//! The text of the help.
/// What the program does.
pub const ABOUT: &str = "Finds deadlocks among transactions that lock resources of a table.";

/// What the subcommands do.
pub const SCRIPT: &str = "Runs a script from standard input to standard output";

pub const THREADS: &str = "Runs the workload in FILE, each client and transmitter by a thread";

pub const STORM: &str = "Runs a generated workload: the same one for the same numbers";

pub const LOCKS: &str = "Answers lock requests by name from standard input, a line each";

pub const EXPLAIN: &str = "Runs a script and says below each line what it changed";

/// What the words of `explain` ask for.
pub const SCRIPT_FILE: &str = "The script; without it, standard input";

pub const MERMAID: &str = "Prints the wait-for graph alone, as Mermaid reads it";

pub const DOT: &str = "Prints the wait-for graph alone, as Graphviz reads it";

pub const ALL: &str = "Adds to the graph the resources that nobody waits for";

pub const AT: &str = "Runs the script to line N, and shows that one";

/// What `explain` prints, and the exit statuses. No line has more than 80 bytes.
pub const EXPLAIN_AFTER: &str = "\
Each line of the script is printed with its number and its reply, and below it
is what it changed: waits with their labels, public labels that rose, to what
and from which holder, cycles that were closed, transactions that were convicted
and why, and new owners. 'mmdetect help script' has the calls. Colors are used
if standard output is a terminal and NO_COLOR is not set.

In a graph a node is a transaction with its two labels, and an edge a wait with
its resource. Victims and cycles are marked.

Exit statuses:
  0  no line was malformed; help was asked for
  1  some line was malformed
  2  the command line is wrong, or the script has no line N
  3  'read fault', 'write fault' or 'input too long' on standard error
  4  memory was refused, and 'refused 10 Memory' printed";

/// What the options do.
pub const REPORT: &str = "Writes what ran and what came of it to FILE, as JSON";

pub const VERBOSE: &str = "Says on standard error how the run goes";

pub const SCRIPT_VERBOSE: &str = "Says on standard error which lines are malformed, and why";

/// The script language with its ranges and refusals, what workloads print, and the exit statuses. No line has more than 80 bytes.
pub const AFTER: &str = "\
A script is read from standard input, and each of its calls has one reply on
standard output. Without a word mmdetect does what 'mmdetect script' does.

Calls of a script, one a line, and their replies:
  table P R L G  ok: a table of P processes and R resources, with the label
                 limit L and the generation limit G
  table2 P R L G ok: the same, and P may be greater
  begin          key K: a new transaction
  acquire K r    granted, or waits H B: the holder's key and the new label
  release K r    free, or to K: the key that owns the resource now
  finish K       finished: it hands over all that it owns, and its key is no
                 longer live
  transmit K     raised B: the label that the transaction shows now; or still
  detect K       deadlock B: a verdict from now on, on this label; standing,
                 if it has one; or clear
  abort K        aborted: a transaction with a verdict waits no longer, and
                 ends as by finish
  give_up K      withdrawn: the transaction waits no longer; it has no
                 verdict, and its two labels are equal
  settle         settled N M: N labels raised and M verdicts given, until
                 nothing is left to do
  state K        active V U, waiting r V U or convicted r V U: the private
                 and the public label
  owner r        owner K, or free
  totals         totals N M A: accepted events, verdicts, aborts

A key K or H is process.generation, a label B, V or U is counter.process, and
r is the number of a resource; processes and resources are counted from 0.
A line that is no call has the reply 'malformed', a table or table2 while a
table stands 'table stands', and a call before any table 'no table'. Lines that
are blank or begin with # have none.

Ranges:
  P  1 to 4096; table2: 1 to 65536   L  1 to 17592186044415
  R  1 to 65536                      G  1 to 4294967295
  A line has at most 128 bytes, a script at most 16777216.

A refused call changes nothing and has the reply 'refused N Name':
   1 Stale            the key is not live
   2 NoResource       there is no resource of that number
   3 Waiting          the transaction waits
   4 AlreadyOwns      the transaction owns the resource that it asks for
   5 NotOwner         the transaction does not own what it releases
   6 Full             no process is free
   7 LabelsExhausted  a label would pass the label limit
   8 NotWaiting       the transaction is active
   9 NoVerdict        no verdict stands for the transaction
  10 Memory           a request for memory was refused
  11 BadConfig        a number of the table is out of range
  13 Carried          the two labels of the transaction are not the same
  14 UnderVerdict     a verdict stands for the transaction
  15 CountsExhausted  the accepted events or the verdicts are 2 to the 62
  The number 12 is of a call that scripts do not have.

A workload is run by threads, each client one transaction, or as many as
'storm --transactions' asks for. When all have ended, two lines are printed,
the first of which counts all transactions:
  clients finished F aborted A spent S refused X
  table verdicts V aborts B

Exit statuses:
  0  script: no line was malformed; threads, storm: each client finished or
     aborted; help was asked for
  1  script: some line was malformed; threads: 'malformed workload' printed
  2  the command line is wrong
  3  'read fault', 'write fault' or 'input too long' on standard error
  4  a table, the start of a thread, or memory was refused, and
     'refused N Name' printed
  5  threads, storm: some client used all its turns or was refused";

/// The requests of a lock service with their replies, their refusals, and the exit statuses. No line has more than 80 bytes.
pub const LOCKS_AFTER: &str = "\
Requests are read from standard input, one a line, as long as there are any.
Each has one reply on standard output, and then a line for each wait that it
ended.

Requests and their replies:
  begin          begun K: a new transaction
  lock K NAME    granted; held, if K owns it; waits H, if H owns it; or
                 deadlock H NAME ..: K would have closed a cycle, and does not
                 wait. H owns it and waits for NAME, which the next key owns,
                 and so on, up to a name of K; after 16 keys stands '..'
  try K NAME     granted, held, or busy H: it never waits
  unlock K NAME  unlocked: the longest waiter owns the name now
  commit K       committed: K hands over all that it owns, and ends
  abort K        aborted: the same, also if K waits
  cancel K       cancelled: K waits no longer
  owner NAME     owner K, or free
  status K       active, or waiting NAME H
  holds K        holds NAME ..: the names that K owns, in the order of their
                 bytes; after 1024 names stands '..' if there are more. By
                 'holds K FROM' those are told that come after the name FROM
  graph          graph N, and N lines '* K NAME H': the waits
  totals         totals BEGUN COMMITTED ABORTED DEADLOCKS

Waits that a request ended:
  * granted K NAME   K owns the name now

A key K or H is process.generation. A NAME is 1 to --name-bytes bytes, without
spaces and control characters. A line that is no request has the reply
'malformed'. Lines that are blank or begin with # have none.

Ranges:
  --transactions  1 to 65536      --name-bytes   1 to 1024
  --names         1 to 16777216   --connections  1 to 65536
  --names-each    0 to 16777216: how many names a transaction may own. 0, which
                  it is if it is not given, stands for as many as there are
  --each          1 to 65536, a quarter of --transactions if it is not given
  --epoch         1 to 9223372036854775807
  --seed          0 to 18446744073709551615

With --connections N each line is 'C REQUEST' of a connection C below N, or
'- C', by which C hangs up; each reply begins with the number of the connection
that it is for. After '* more C' some transactions of C are left, and '- C' has
to come again; after '- C' none is. After '* more K' some names of K are left,
and its commit or abort has to come again; until it has ended, the status of K
is 'ending'. A connection may use only the transactions that it began, at most
--each at a time. Each line has one reply, also a blank line and a comment:
'malformed'. Connection 0 is the operator's: it begins nothing, and may ask for
status, holds and abort of any K; it alone may ask for graph, list and counts:
they are 'refused operator' to others. Further requests:
  begin NAME ..   begun K if K owns all, or begun K with one of the three below
  lock K NAME ..  for two names or more: granted if K owns all; or
                  waits I H, deadlock I H NAME .. or refused I WORD, by the
                  place I of the name, from 0: K owns those before it, and did
                  not ask for those after it
  fence K NAME    fence E F: the epoch, and the count of events, of a name of K
  hello           hello 2 E TRANSACTIONS NAMES BYTES: the protocol, the epoch or
                  0, and --transactions, --names and --name-bytes
  list            list N, and N lines '* K C STATE': each live transaction, its
                  connection, and its status
  counts          counts BEGUN COMMITTED ABORTED DEADLOCKS WAITS WITHDRAWN
                  EVENTS LABELS-LEFT COUNTS-LEFT
The operator gets '* deadlock K NAME H NAME ..' for each deadlock: K asked for
the first name. Who began K gets '* aborted K' if the operator aborts it.

A refused request changes nothing and has the reply 'refused' with a word:
  no-transaction     no live transaction has this key
  waiting            K waits
  not-waiting        K does not wait
  name-too-long      the name has more bytes than --name-bytes says
  not-owner          K does not own the name
  names-full         as many names are owned as --names says
  too-many-names     K owns as many names as --names-each says
  transactions-full  as many transactions are live as --transactions says
  labels-full        there may be no label left for one more wait
  counts-full        the count of events is at its limit
  operator           the operator alone may ask for this, or it may not
  no-epoch           the service has no --epoch

Exit statuses:
  0  the input ended, and no line was malformed; help was asked for
  1  the input ended, and some line was malformed
  2  the command line is wrong
  3  'read fault' or 'write fault' on standard error
  4  memory was refused, and 'refused 10 Memory' printed";
