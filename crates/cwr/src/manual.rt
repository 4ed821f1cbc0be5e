//! The manual, which `tools/manual` writes from docs/MANUAL.md.

/// The manual, as it is printed.
pub(crate) const MANUAL: &str = "\
CWR(1)                          User Commands                           CWR(1)

NAME
       cwr - checks, explains, shows, splits and joins CWR 2.1 files

SYNOPSIS
           cwr COMMAND [OPTIONS] ...
           cwr < FILE

DESCRIPTION
       `cwr` reads CWR 2.1 transmissions, the fixed-width files in which music
       publishers and societies register works. It says whether a file is
       good, names the first line and field from which none can go on, shows
       what a file has, and writes files whose numbers are right.

       Where FILE may be left out, standard input is read. So it is where `-`
       stands in the place of a file that is read. Where it is a terminal,
       standard error says that it is waited for, and Ctrl-D at the start of a
       line ends it. Without any word `cwr` is `cwr check`. Memory holds one
       line and one transaction, however large the file is, but for `cwr acks
       --sent` and lists.

       A word that begins with a hyphen is an option. After `--` it is a file.
       In lines and messages a control character in a name, as a line feed, is
       shown as `?`. In JSON and in tables a name stands as it is.

COMMANDS
   cwr check [OPTIONS] [FILE]...
       Judges transmissions. It prints a line for each finding in a
       transaction, and the verdict last. Of several files each line has the
       file's name and a colon before it, and the last line has the sums. A
       file that fails doesn't stop the others. The status is the worst of
       all.

       A finding leaves the verdict and the status as they are. So where a
       good transmission has findings, a line on standard error says how many,
       and what is usually rejected for the worst of them.

       --quiet
              Prints only what isn't good, and the sums. That line on standard
              error comes all the same.

       --fail-on LEVEL
              Status 1 where a finding has that level or a worse one. From the
              least to the worst they are F, R, T, G and E.

   cwr show [OPTIONS] [FILE]
       Prints each record under its number, with a line for each cell that
       isn't blank, and the verdict last. Of findings in a good transmission
       standard error says what `cwr check` says there.

       --fail-on LEVEL
              Status 1 where a finding has that level or a worse one: F, R, T,
              G or E.

   cwr explain [OPTIONS] [FILE]...
       Prints what `cwr check` prints, with its options. Under each line
       stands, indented, where it is, which work it is by its number and
       title, what was found, what may stand there, and how much is rejected.
       Of a wrong number it says what that points to: a record that is missing
       or stands twice, or a count that wasn't changed. Of a line that can't
       stand there it says by its numbers what is missing before it, or that
       it was moved, and after which records it may stand. Levels are those of
       this profile, and societies differ. Where something is rejected, a line
       on standard error says that, once a run.

       --quiet
              Prints only what isn't good, and the sums.

       --fail-on LEVEL
              Status 1 where a finding has that level or a worse one: F, R, T,
              G or E.

   cwr lint [OPTIONS] [FILE]...
       Tells every fault of transmissions in one pass, where `cwr check` stops
       at the first. Each has a line, by record and then by field, and so has
       each finding in a transaction without a fault, but for one that the
       first faulty line ends. A line with their numbers is last. Where there
       is no fault it prints what `cwr check` prints. Several files are told
       as `cwr check` tells them.

       --explain
              Explains each fault and each finding as `cwr explain` does, with
              an empty line after each.

       --advice
              Tells what a society may send back, too: after the findings of a
              transaction without a fault it prints the advice on it, as `cwr
              advise` does.

       --all  Tells all advice, as `cwr advise --all` does. It stands beside
              `--advice`.

       --quiet
              Prints only what isn't good, and the sums.

   cwr advise [OPTIONS] [FILE]...
       Judges transmissions, and tells what a society may send back all the
       same: numbers whose check digits are wrong, chains of publishers
       without an original one, writers without territories, and more. Of each
       transaction it prints the findings as `cwr explain` does, and then the
       advice, each with what to do. Of each rule the first three places are
       told, and before the verdict how many there are. The verdict is last.
       Advice doesn't change it, nor the status without `--fail-on`. Several
       files are told as `cwr check` tells them. The rules are in
       docs/ADVICE.md of the repository.

       --quiet
              Leaves out the verdict on what is good. Findings and advice are
              printed all the same, so a file without any leaves no line. The
              sums come, too, and with `--fail-on` or `--whole` the verdict
              where the status is 1.

       --fail-on LEVEL
              Status 1 where a finding or advice has that level or a worse
              one: F, R, T, G or E. With `--repeated` work numbers that stand
              twice count, too. Places that aren't told count.

       --all  Tells each place of each rule. A script that reads the lines of
              advice wants it.

       --repeated NUMBER
              Tells work numbers that stand in two works of a transmission,
              with the places of both. The numbers of its first NUMBER works
              are kept, 0 to 99999999; of more works the first one beyond is
              told. Without it 0.

   cwr json [OPTIONS] [FILE]
       Writes the data of a transmission as lines of JSON to standard output,
       a line for each header, transaction and trailer. The verdict goes to
       standard error.

       -o OUT
              The file that is written. It is written as `OUT.part`, and gets
              its name when the transmission is whole. Without it, or with
              `-`, standard output is written, and where the transmission
              isn't whole, a line on standard error says at which record the
              data ends.

       --numbers
              Adds the notes `_group`, `_transaction` and `_line` to each
              line.

       --utf8
              Cells in UTF-8 are their texts, and of any other cell each byte
              from 128 on is the character U+F780 to U+F7FF. Without it each
              such byte is the character U+0080 to U+00FF, as in ISO 8859-1;
              where HDR names UTF-8 as its character set, a line on standard
              error says that.

   cwr csv [OPTIONS] KIND [FILE]
       Writes a table to standard output (RFC 4180, UTF-8): a heading, and a
       row for each record of one type. KIND is the type as the file spells
       it, as `SWR`. The verdict goes to standard error.

       The first columns are the numbers that `cwr check` names: `group`, from
       1, and `transaction` and `record`, from 0. The others are the keys of
       `cwr json`. In a table of records that stand in transactions `_work`
       and `_title` come last: the number and the title of the work, by the
       transaction's header. Of an agreement they are its number and blank,
       and of an acknowledgement the number and the title of what it answers.
       Cells are as they stand, without trailing spaces. So a spreadsheet
       should import them as text: else it may take `=1+1` for a formula, and
       `007` for a number.

       With `works` as KIND each NWR and REV has a row: its work number, title
       and ISWC, its writers (SWR and OWR) and its publishers (SPU and OPU).
       Names are joined by semicolons, those of writers with the last name
       first. The shares of each right are added up, in percent: `0.00` where
       what was sent is zero, and blank where each share is blank.

       -o OUT
              The file that is written. It is written as `OUT.part`, and gets
              its name when the transmission is whole. Without it, or with
              `-`, standard output is written, and where the transmission
              isn't whole, a line on standard error says at which record the
              table ends.

       --utf8
              Shows cells as `cwr json --utf8` does. Without it they are read
              as ISO 8859-1, and where HDR names UTF-8, standard error says
              that.

   cwr acks [OPTIONS] [FILE]...
       Tells what became of each transaction that the acknowledgements in
       transmissions answer. The verdict goes to standard error, and where a
       good transmission has no acknowledgement, a line says that, too.

       Each acknowledgement has a line, or with `--status` those of some
       statuses. It begins with the status, and goes on with the group and the
       sequence of the transaction that was sent, its type, the worst level of
       the messages, the numbers of the submitter and of the recipient, and
       the title. What is blank is left out, and cells are as they stand,
       without trailing spaces, but with `--utf8`. Under it each message has a
       line that begins with two spaces: what it rejects, what it is about,
       the record in the transaction that was sent, counted from 0, and the
       text. Other transactions are passed over, and so is the copy in an
       acknowledgement. What each status means stands below, under
       Acknowledgements.

       Of several files each line has the file's name and a colon before it,
       indented ones too. Each whole file has its line of counts, and the last
       line has the sums. Standard error has the verdicts with their names,
       and the line that `cwr check` writes last. A file that fails doesn't
       stop the others. The status is the worst of all.

       --sent SENT
              Matches them with the transmission in the file SENT. It may
              stand more than once. An acknowledgement names the creation date
              and time of the transmission that it answers, and in it a group,
              a sequence, a type and the submitter's number. All of these are
              compared. Where its date is blank or zeros, or its time blank,
              all SENT are asked. A blank number is the same as any. What is
              told of a match stands under Output. All SENT are read first.
              Where one is refused or cut off, its verdict goes to standard
              error, and nothing else is told. Memory holds less than 64 bytes
              of each of their transactions, and 40 for each sender that
              answers it. Standard input may stand for one file of all that
              are named.

       --by-place
              Doesn't compare the creation date and time: for recipients that
              put in others. It asks for `--sent`.

       --state
              Writes a table in place of the lines (RFC 4180, UTF-8). Each
              transaction of SENT has a row for each sender that answers it,
              or one where nobody does. A row has what was answered last, by
              the processing date, and what that comes to. Its columns are
              `sent`, `group`, `transaction`, `type`, `submitter`, `society`,
              `status`, `processed`, `recipient`, `level` and `state`. The
              sums go to standard error, also where a file isn't whole. It
              asks for `--sent`.

       --fail-on STATES
              Status 1 where a row of that table has one of these states,
              whether it is printed or not. Commas stand between them:
              accepted, pending, rejected, conflict, duplicate,
              claim-rejected, no-participation, unanswered. Without it the
              status says only whether all was read. It asks for `--sent`.

       --json
              Writes lines of JSON. Each acknowledgement is an object with
              `status`, `words`, `group`, `transaction`, `type` and its list
              of `messages`, and with `level`, `submitter`, `recipient` and
              `title` where there are any. Cells are shown as by `cwr json`.
              The lines of `--sent` and of counts stand under Output. With
              `--state` each row is an object. All keys are in docs/ACKS.md of
              the repository.

       --status STATUS
              Tells acknowledgements of these statuses alone, with what stands
              under each. Commas stand between them, as in `--status RJ,CO`,
              or the option comes again: CO, DU, RA, AS, AC, SR, CR, RJ, NP or
              RC. Counts, what isn't answered and standard error are those of
              all acknowledgements. It doesn't stand beside `--state`, which
              has `--fail-on`.

       --utf8
              Shows cells as `cwr json --utf8` does. Without it they stand in
              lines byte for byte. In JSON and in the table they are then read
              as ISO 8859-1, and where HDR of a FILE or of SENT names UTF-8,
              standard error says that.

   cwr summary [OPTIONS] [FILE]...
       Tells what stands in transmissions, in numbers and with digests. Each
       has a block of lines: its name, and below it, indented, a line for each
       column in which something other than 0 stands. Of several files a block
       of sums over the good ones comes last, `SUMS`. A file that fails has
       the verdict `FAILED` and no number, and doesn't stop the others. The
       status is that of `cwr check`. Of an input that is refused or ends too
       early the numbers are those of what comes before that, up to the last
       transaction that is whole there. Each input is read to its end. Memory
       also holds the type and ID of each sender, once.

       --csv  Writes a table (RFC 4180, UTF-8): a heading with all columns,
              and a row for each file. What isn't known or isn't asked for is
              blank, and so is the name of the sums.

       --json
              Writes lines of JSON with the same members, an object for each
              file. Counts and shares are numbers, and what is blank is null.

       --no-digest
              Leaves out the SHA-256 digests, `sha256` and `canonical_sha256`,
              which take longer than all else.

       --advice
              Counts the advice, too, that `cwr advise --all` tells.

       --quiet
              Tells the sums alone, of one file too.

       The columns, in their order:

       `file`: The input's name. Then `bytes`, how many bytes it has,
       `bytes_after`, how many of them stand after a good transmission, and
       `sha256`, the SHA-256 digest of all of them.

       `canonical_sha256`: The digest of what `cwr join -o OUT FILE` writes:
       the transmission in full width, with its numbers. It is the same of the
       same transmission, whatever its line ends and trailing spaces are.

       `verdict`: The line with which `cwr check` ends; of the sums that on
       several files.

       `sender_type`: With `sender_id`, `sender_name`, `creation_date`,
       `creation_time` and `transmission_date`, HDR's cells.

       `groups`: With `transactions`, `transactions_AGR` to
       `transactions_ACK`, `records`, and `records_HDR` to `records_XRF`, how
       many there are, and how many of each type.

       `works`: NWR and REV transactions, then by their version type as
       `works_ORI` and `works_MOD`. Then `agreements`, and `acknowledgements`,
       also by their statuses as `acknowledgements_CO` to
       `acknowledgements_RC`. The copy in an acknowledgement is no work, but
       its records count as records.

       `findings`: Then by their levels as `findings_T`, `findings_R` and
       `findings_F`; and so pieces of advice as `advice_T`, `advice_R` and
       `advice_F`.

       `controlled_pr`: The performing right's shares of SPU and SWR in works
       added up, in percent, and `others_pr` those of OPU and OWR. They are
       for control, and are no money. Then `works_without_pr`, in how many
       works each such share is blank, and `works_off_pr`, in how many they
       add up to neither 0 nor about 100 percent. So for `mr` and `sr`.

       `senders`: How many senders, by type and ID, the good files have; of
       one file 1, and 0 without HDR.

   cwr write [OPTIONS] [FILE]
       Writes the transmission that lines of JSON are, with all its numbers.
       FILE has lines as `cwr json` writes them. How it ended goes to standard
       error.

       -o OUT
              The file that is written. It is written as `OUT.part`, and gets
              its name when it is whole. Where it is the input, under whatever
              name, nothing is written, and the status is 2. Without it, or
              with `-`, standard output is written.

       --line NUMBER
              The most bytes of a line, 1 to 1000000000. Without it 64000000.

       --utf8
              Cells are shown as by `cwr json --utf8`.

   cwr split [OPTIONS] -n N FILE [PREFIX]
       Cuts a transmission into parts, each a whole transmission with N
       transactions. They are written to `PREFIX00000001`, `PREFIX00000002`
       and so on. What has such a name is replaced, and standard error says
       so. A part that would be the input is refused. Of findings standard
       error says what `cwr check` says there.

       Each part has the header of the whole, with its creation date and time.
       So answers to two parts can't be told apart by these, but with
       `--created`.

       --fail-on LEVEL
              Status 1 where a finding has that level or a worse one: F, R, T,
              G or E. The parts are written all the same.

       --new  Replaces no file: where one has a part's name, the status is 2,
              and the parts before it stay.

       --created MOMENT
              The first part was created at that moment, `YYYYMMDDTHHMMSS`,
              and each other one a second later. Where the day ends before,
              the status is 2, and the parts before stay.

       -o PREFIX
              PREFIX, in the place of the second word.

       -n N   The transactions of a part, 1 to 99999999. The last part may
              have fewer.

   cwr join [OPTIONS] OUT [FILE]...
       Joins the transmissions in the files FILE, of which there is one at
       least, to one in the file OUT, in their order, with their groups
       numbered anew. Where OUT is one of the inputs, under whatever name,
       nothing is written, and the status is 2. So it is where OUT is `-`: a
       join isn't written to standard output. It is written as `OUT.part`, and
       gets its name when it is whole.

       The result has the header of the first transmission. Where another one
       has a sender of another type or ID, standard error says whose works now
       go out under whose name. Of findings it says what `cwr check` says
       there.

       -o OUT
              The file OUT. Each other word is then a FILE.

       --new  Replaces no file: where OUT is there, nothing is written, and
              the status is 2.

       --fail-on LEVEL
              Where a finding has that level or a worse one, F, R, T, G or E,
              nothing is written, and the status is 1.

       --same-sender
              Where a sender is another than that of the first transmission,
              nothing is written, and the status is 2.

       --repeated NUMBER
              Tells on standard error which work numbers stand in two of the
              transmissions. The numbers of the first NUMBER works are kept, 0
              to 99999999. Without it 0.

   cwr renumber [OPTIONS] [FILE] [OUT]
       Makes the numbers of a transmission fit the records that are there:
       transaction and record sequences, group IDs, and the counts of GRT and
       TRL, whatever stands in their cells. Look first why they don't fit,
       with `cwr explain`. All else is refused as `cwr check` refuses it, and
       of findings standard error says what `cwr check` says there. The result
       is written in full width to the file OUT, as `OUT.part` until it is
       whole, or without it or with `-` to standard output, where a refusal
       leaves its first lines. A file that is called OUT is replaced: the
       second name is never read. Where OUT is the input, under whatever name,
       nothing is written, and the status is 2.

       A record that is missing stays missing, and one that stands twice stays
       twice. Some of that standard error tells, with the line: where in FILE
       a record sequence comes again or goes back in mid-transaction, a record
       has another transaction sequence than the one before it, a transaction
       sequence or a group's ID isn't one more than that before, GRT has
       another group's ID than GRH, or a count of GRT or TRL isn't what came.
       A count or an ID that is 0 or blank wasn't filled in, and as long as
       all sequences are 0 nothing was counted: of these nothing is told. Of
       more than ten such lines the number follows. What it doesn't tell may
       be lost all the same, as in a file without counts. So run `cwr lint`
       first, which tells every number that is wrong.

       Where a header is missing its records would go to the work before, and
       where a GRT and the GRH after it are missing a group's works would go
       to the group before. So where a record sequence goes back in
       mid-transaction, or the transaction sequence changes there, or GRT has
       another ID than GRH, no file is written, and the status is 1. To
       standard output all was written by then.

       -o OUT
              OUT, in the place of the second word.

       --new  Replaces no file: where OUT is there, nothing is written, and
              the status is 2.

       --anyway
              Goes on where records may have come into the transaction or
              group before theirs.

       --fail-on LEVEL
              Status 1 where a finding has that level or a worse one: F, R, T,
              G or E. No file is then written.

   cwr select [OPTIONS] [FILE]
       Writes some transactions of a transmission as one of their own, in full
       width: its HDR, and each group of which one is selected, with its GRH,
       these transactions in their order, and a GRT. Of a group that isn't
       whole GRT has no currency and no total, which standard error tells
       where it had one. The result goes to the file OUT, as `OUT.part` until
       it is whole, or to standard output. What is told of it stands under
       Output.

       What each of `--works`, `--places`, `--kind`, `--party` and `--state`
       asks for has to be so of a transaction, and one of them is asked for at
       least. A line of a list ends in a line feed. Spaces and a CR at its end
       don't count, nor do blank lines, nor a UTF-8 mark at the front of the
       list.

       An acknowledgement names the creation date and time of what it answers.
       So a file asks for `--created` or `--same-created`. A rejected NWR is
       sent again as NWR, mostly, and a REV is for a work that the society
       has: no type is changed without `--as`.

       Where nothing is selected, or FILE is refused, OUT isn't written, and
       the status is 1. It is 1 too where something of a list is missing: then
       OUT has the rest. To standard output all was written by then. Memory
       also holds the lists, and 25 bytes for each of their lines.

       --works LIST
              Those whose numbers stand in the file LIST, one a line: the
              submitter's number of the work or the agreement, and of an
              acknowledgement the submitter creation number, not that of its
              copy. They are compared byte by byte. A line of more than 20
              bytes is refused, with status 2.

       --places LIST
              Those whose places stand in the file LIST, one a line: the group
              and the transaction as `cwr check` counts them, with a space
              between them, as `1 0`. Any other line is refused, with status
              2.

       --kind KINDS
              Those of these types, with commas between them: AGR, NWR, REV,
              ACK.

       --party NUMBER
              Those in which an IPI name number is that one, whatever zeros
              lead: of 1 to 11 digits, not all of them zeros. That of a writer
              in EWT, VER and COM counts, and so does one in a copy.

       --state STATES
              Those of which a row of `cwr acks --state --sent FILE
              ANSWERS...` has one of these states, with commas between them:
              accepted, pending, rejected, conflict, duplicate,
              claim-rejected, no-participation, unanswered. FILE is then read
              twice, and isn't standard input. Memory holds less than 64 bytes
              of each of its transactions, and 40 for each sender that answers
              it.

       --answers ANSWERS
              Acknowledgements for `--state`, a transmission in the file
              ANSWERS. It may stand more than once. Where FILE or one of them
              is refused or cut off, its verdict goes to standard error,
              nothing is written, and the status is 1. So it is with `--whole`
              where bytes follow it. Where some of them answer none of FILE's
              transactions, agree with several, or name no date and time,
              standard error tells how many: look first whether these are the
              answers to FILE.

       --by-place
              With `--state`, as in `cwr acks`: the acknowledgements may
              answer FILE whatever creation date and time they name.

       --not  All others.

       --created MOMENT
              When the result is created, `YYYYMMDDTHHMMSS`, as
              `20240131T093000`: HDR's creation date and time, and its
              transmission date where that is earlier. With OUT the status is
              2 where that is FILE's moment.

       --same-created
              The result keeps FILE's creation date and time.

       --as KIND
              What works are sent as: with NWR each REV becomes NWR, its GRH's
              type too, and with REV each NWR becomes REV. Groups stay apart.
              AGR and ACK stay, and so does a header in the copy of an
              acknowledgement. `--kind` and `--state` speak of FILE as it is.

       --new  Replaces no file: where OUT is there, nothing is written, and
              the status is 2.

       --fail-on LEVEL
              Status 1 where a finding in what is selected has that level or a
              worse one: F, R, T, G or E. No file is then written.

       -o OUT
              The file that is written. Where it is an input, under whatever
              name, nothing is written, and the status is 2. Without it, or
              with `-`, standard output is written.

   cwr manual
       Prints this manual to standard output, with status 0.

   cwr help [COMMAND]...
       Prints the short help of the program or of a command to standard error,
       with status 2.

OPTIONS
       These limits go with each command that reads or writes a transmission.
       What would pass one is refused.

       --records NUMBER
              The most records of a transmission, 5 to 99999999. Without it
              99999999.

       --groups NUMBER
              The most groups of a transmission, 1 to 99999. Without it 99999.

       --transaction NUMBER
              The most records of one transaction, 1 to 999999. Without it
              999999. It bounds the memory that a stranger's file can take.

       These go with each command that reads a transmission.

       --whole
              Status 1 where bytes follow the transmission. A join then writes
              no file and no last line, nor does a renumbering or a selection
              to a file.

       These go with each command that reads.

       --progress
              Shows on standard error how far a long run is, from the second
              second on. Without it that is so where standard error is a
              terminal.

       --no-progress
              Doesn't show it.

       --color WHEN
              When verdicts, faults, findings and advice of `check`,
              `explain`, `lint` and `advise` begin with a word in its colour.
              `always` and `never` say it for good. With `auto`, as without
              the option, it is so where standard output is a terminal and
              NO_COLOR isn't set, or empty. Red is what stops, yellow what may
              be sent back, green what is good.

       On a terminal the explanations of these four, and all help, are broken
       between words, at 80 columns, or at as many as COLUMNS says where that
       is a number of 40 or more. In a pipe or a file no line is broken.

       These print to standard error, and the status is 2.

       -h, --help
              The short help of the program, or of the command before it.

       -V, --version
              The version. It stands before any command.

OUTPUT
       The last line on standard output is one of these. Capitals after small
       letters stand for numbers, REASON for words.

       GOOD groups G transactions T records R
              The input begins with a transmission. No byte after it is
              judged; how many follow is told on standard error. Of `cwr
              renumber` these are the numbers of what is written; without OUT
              the line goes to standard error.

       REFUSED record R field F level L REASON
              No transmission continues from that field of line R. L is `E`
              where the file is rejected, `G` the group, `T` the transaction,
              `R` the record, `F` the field.

       TRUNCATED records R
              The input ended too early, after R records.

       SPLIT outputs O transactions T
              The parts are written.

       JOINED inputs I groups G transactions T records R
              The result is written.

       input I: LIMIT records, groups or transaction
              The result would pass that limit with input I. Before `REFUSED`
              and `TRUNCATED`, too, `cwr join` writes the number of the input.

       SELECTED K of N
              Of N transactions K are selected. With what follows it goes to
              standard error where OUT isn't given.

       FAULTS F findings N records R
              `cwr lint` told so many faults and findings, in R lines.

       FILES N good G refused R truncated T failed X
              Several files were judged.

       Before it `cwr check`, `cwr explain`, `cwr lint` and `cwr advise` write
       the findings:

       FINDING group G transaction T record S field F level L rule V
              A rule of the format is broken in that record. The group is
              counted from 1, the transaction and the record from 0. The
              verdict stays as it is.

       After those of a transaction `cwr advise`, and `cwr lint` with
       `--advice`, write the advice on it, with indented lines under each:

       ADVICE group G transaction T record S field F level L rule A
              A society may reject that record. Numbers are as those of a
              finding. L says what is usually rejected.

       ADVICE rule A at N places, M of them not shown (--all tells each)
              Of the rule A the first three places were told, and M more are
              in the file. It stands before the last line.

       LIMIT repeated N group G transaction T
              The numbers of N works are kept, and not that of this one. It
              and the works after it are compared with those N alone.

       After `SELECTED` `cwr select` writes what of its lists is missing, or
       is there several times, each once:

       MISSING NUMBER
              No transaction of FILE has that number. The status is 1.

       TWICE NUMBER group G transaction T
              Several have that number, and this is one of them. It changes no
              status.

       MISSING group G transaction T
              FILE has no transaction there. The status is 1.

       `cwr acks` writes a line of counts last, where the transmission is
       whole:

       ACKS N CO C DU D ...
              There are N acknowledgements, and so many of each status. Of
              several files this line without a name has the sums of all that
              were told.

       With `--sent` it writes these under an acknowledgement, and what isn't
       answered before the last counts:

       UNKEYED group G transaction T TYPE ...
              It has no creation date or no time. All SENT were asked.

       UNSENT group G transaction T TYPE ...
              No transaction of SENT is the one that it answers: it answers
              another transmission, or SENT is another file.

       UNCLEAR group G transaction T TYPE ...
              It agrees with transactions of several SENT. None of them counts
              as answered.

       RETYPED group G transaction T TYPE ... sent VALUE
              The transaction at that place was sent with the type VALUE. It
              doesn't count as answered.

       RENUMBERED group G transaction T TYPE ... sent VALUE
              The transaction at that place was sent with the number VALUE. It
              doesn't count as answered.

       RETITLED group G transaction T TYPE ...
              The transaction was sent with another title. The titles' checks
              of 32 bits differ, and neither title is blank. Where many do,
              SENT is another file.

       AGAIN group G transaction T TYPE ...
              An acknowledgement before it, by the same sender, answers the
              same transaction. `--state` tells which one counts.

       UNANSWERED group G transaction T TYPE submitter N
              No acknowledgement answers this transaction of SENT, which has
              this number. With several SENT the name of its file and a colon
              stand before it.

       With several SENT the line of an acknowledgement that answers a
       transaction ends in `sent` and the name of its file.

       With `--json` these are members of the object of the acknowledgement:
       `\"unkeyed\":true`, `\"unsent\":true`, `\"unclear\":true`, `\"retyped\":VALUE`,
       `\"renumbered\":VALUE`, `\"retitled\":true` and `\"again\":true`. What isn't
       answered is
       `{\"unanswered\":{\"group\":G,\"transaction\":T,\"type\":TYPE,\"submitter\":N}}`,
       and the counts are `{\"acks\":N,\"statuses\":{\"CO\":C,\"DU\":D,...}}`. With
       several files `\"file\":NAME` comes first, and with several SENT
       `\"sent\":NAME`.

       With `--state` the last line on standard error is this one:

       STATE sent N accepted A pending P ...
              SENT have N transactions, and so many rows have each state. Last
              stand how many acknowledgements are `unsent`, with what is
              RETYPED and RENUMBERED, `unclear` and `unkeyed`.

       `cwr write` writes one of these to standard error:

       WRITTEN lines L bytes B
              The transmission is written.

       REFUSED line L ...
              That line isn't taken, and why. Below it a line after two spaces
              may say more.

       REFUSED the input ends before the trailer
              No line is TRL's.

ACKNOWLEDGEMENTS
       These are the statuses that `cwr acks` tells, and what to do.

       CO     conflict: Shares don't go together with those of another claim.
              Settle it with who made that.

       DU     duplicate: The work was sent before. What was new in this one
              wasn't taken: send a REV.

       RA     transaction accepted: It is accepted for processing, and not
              registered yet. Keep asking.

       AS     registration accepted: It was taken as it was sent. Keep the
              recipient's number.

       AC     registration accepted with changes: Compare what was changed:
              the messages or the copy tell it.

       SR     registration accepted, ready for payment: Keep the recipient's
              number.

       CR     registration accepted with changes, ready for payment: Compare
              what was changed.

       RJ     rejected: Mend what the messages say, and send it again.

       NP     no participation: The submitter has none in the recipient's
              territory. Look whether the territories are right.

       RC     claim rejected: The claim was rejected, not the work. Ask the
              recipient why, where no message says it.

       In the table of `--state` AS, AC, SR and CR are `accepted`, RA is
       `pending`, RJ `rejected`, CO `conflict`, DU `duplicate`, RC
       `claim-rejected` and NP `no-participation`. Of several answers by one
       sender the one with the latest processing date counts, and of equal
       dates one that isn't RA. Then the one counts whose file was created
       later, and then the last one read.

       How societies fill in acknowledgements isn't known here, and they may
       differ. One may repeat the creation date and time of what it answers,
       put in others, or leave them blank. It may leave the submitter's number
       blank, or write it otherwise. It may answer in one file or in several,
       with RA first or without, and again later or never. Nor is it known
       whether its processing date is that of the decision. So look at a
       society's first files by hand. Many lines with UNSENT, RENUMBERED or
       UNKEYED say that it has another habit. More of this stands in
       docs/ACKS.md of the repository.

       The level of a message says what is rejected: E the file, G the group,
       T the transaction, R the record, F the field.

EXIT STATUS
       0      Good: the verdict is `GOOD`, with findings or without; or what
              was asked for is written.

       1      Refused, truncated, or past a limit; or less than `--whole`,
              `--fail-on` or a list ask for; or nothing is selected.

       2      A wrong command line, or help; or a file that may not be
              written: an input, or with `--new` one that is there; or
              standard input that would be read twice; or a line that a list
              can't have.

       3      A file, a device or memory failed. Standard error says which in
              a line that begins with `cwr: `, and on a second one why, with
              the bytes read or written before. A closed pipe is passed over
              without a word. A run that is started without standard input or
              output fails where it needs that.

FILES
       Where a file is replaced, by whatever command, a line on standard error
       says so. What isn't a regular file, as a pipe or a device, is written
       in place, and can't be taken back.

       PREFIX00000001
              The first part of a split. After a refusal or a fault the parts
              that were finished stay, each a whole transmission. So do the
              parts of an earlier split that aren't replaced.

       NAME.part
              What a file is called until it is whole; `NAME.part1` to
              `NAME.part99` where something has that name. After a refusal or
              a fault it is removed, if that can be done. A run that is killed
              may leave it.

EXAMPLES
       The files of these examples are in `samples/` of the repository, and
       with an installed program in `share/doc/cwr/samples`: `cp
       samples/*/*.cwr .` copies them.

       Is a file good?

           $ cwr check works.cwr; echo $?
           GOOD groups 2 transactions 3 records 12
           0

       What is wrong with this one?

           $ cwr explain wrong_code.cwr
           REFUSED record 5 field 10 level T cell not a code
             where     wrong_code.cwr, line 5, bytes 127 to 129 of the line, byte 704 of the file
             work      W0001 BLUE RIVER
             field     NWR distribution category
             found     \"ROC\"
             expected  a code, one of: JAZ POP SER UNC, or spaces
             level     T: the transaction is rejected
           cwr: by this profile the transaction is rejected; societies differ

       Rules that a good file breaks:

           $ cwr check findings.cwr
           FINDING group 1 transaction 0 record 0 field 7 level F rule V1
           FINDING group 2 transaction 1 record 0 field 1 level T rule V6
           GOOD groups 2 transactions 3 records 12
           cwr: findings.cwr: 2 findings, the worst of level T: such a transaction is usually rejected (cwr explain findings.cwr; --fail-on T makes it the status)

       What may a society send back?

           $ cwr advise advised_work.cwr
           ADVICE group 1 transaction 0 record 3 field 10 level F rule A4a
             where     line 6, SWR
             work      W0001 BLUE RIVER
             cell      line 6, SWR ipi name number: 00014107383
             advice    this is no IPI name number: it has eleven digits, of which the last two check the others; look it up again
           GOOD groups 1 transactions 1 records 10

       What stands in a file, in numbers?

           $ cwr summary --no-digest works.cwr
           works.cwr
             bytes                1599
             verdict              GOOD groups 2 transactions 3 records 12
             sender_type          PB
             sender_id            123456789
             sender_name          MUSIC HOUSE
             creation_date        20240102
             creation_time        101500
             transmission_date    20240103
             groups               2
             transactions         3
             transactions_NWR     1
             transactions_REV     2
             records              12
             records_HDR          1
             records_GRH          2
             records_GRT          2
             records_TRL          1
             records_NWR          1
             records_REV          2
             records_SWR          3
             works                3
             works_ORI            3
             works_without_pr     3
             works_without_mr     3
             works_without_sr     3
             senders              1

       A compressed file, through a pipe:

           $ gzip -c works.cwr | gzip -dc | cwr check
           GOOD groups 2 transactions 3 records 12

       All files of a folder that aren't good:

           $ cwr check --quiet work*.cwr wrong_c*.cwr
           work_missing.cwr: REFUSED record 7 field 2 level T number expected 0
           wrong_code.cwr: REFUSED record 5 field 10 level T cell not a code
           wrong_count.cwr: REFUSED record 4 field 4 level G number expected 3
           FILES 4 good 1 refused 3 truncated 0 failed 0

       Is there a finding for which a record or more is rejected?

           $ cwr check --fail-on R findings.cwr > /dev/null; echo $?
           cwr: findings.cwr: 2 findings, the worst of level T: such a transaction is usually rejected (cwr explain findings.cwr)
           1

       What a file of acknowledgements rejects, or finds in conflict, and why:

           $ cwr acks --status RJ,CO acks_2_991.cwr
           RJ rejected: group 2 transaction 1 NWR level T submitter AV-000002 title THE SALT ROAD
             level T type T record 3 SWR validation 061: WRITER SHARES DIFFER FROM THOSE OF AN EARLIER CLAIM
             level R type R record 6 SWR validation 017: SHARE OF THIS WRITER IS NOT THE ONE THAT WAS AGREED ON
           CO conflict: group 2 transaction 3 NWR level T submitter AV-000004 recipient 991-7000043 title PAPER BIRDS
             level T type T record 0 NWR: SHARES OF 125 PERCENT ARE CLAIMED: ANOTHER PUBLISHER CLAIMS 50 PERCENT
           ACKS 6 CO 1 DU 0 RA 0 AS 3 AC 1 SR 0 CR 0 RJ 1 NP 0 RC 0
           GOOD groups 1 transactions 6 records 14

       Two months, two societies: which acknowledgements have no key or
       another number, and what nobody answered?

           $ cwr acks acks_*.cwr --sent sent_january.cwr --sent sent_february.cwr 2> /dev/null | grep -E 'UN[A-Z]+ED|RE[A-Z]+ED'
           acks_3_992.cwr: UNKEYED group 1 transaction 0 NWR submitter AV-000005 title A HOUSE OF WEATHER
           acks_4_991.cwr: RENUMBERED group 1 transaction 1 NWR submitter AV-000016 title COPPER AND RAIN sent AV-000006
           sent_february.cwr: UNANSWERED group 1 transaction 2 NWR submitter AV-000007

       What became of each work that isn't accepted everywhere, and the sums:

           $ cwr acks --state acks_*.cwr --sent sent_january.cwr --sent sent_february.cwr 2> /dev/null | grep -v accepted | cut -d, -f1,5-8,10,11
           sent,submitter,society,status,processed,level,state
           sent_january.cwr,AV-000001,SO 992,NP,20260206,,no-participation
           sent_january.cwr,AV-000002,SO 991,RJ,20260128,T,rejected
           sent_january.cwr,AV-000004,SO 991,CO,20260128,T,conflict
           sent_january.cwr,AV-000004,SO 992,DU,20260206,,duplicate
           sent_february.cwr,AV-000006,SO 991,RA,20260218,,pending
           sent_february.cwr,AV-000007,,,,,unanswered
           $ cwr acks --state acks_*.cwr --sent sent_january.cwr --sent sent_february.cwr 2>&1 > /dev/null | tail -n 2
           FILES 4 good 4 refused 0 truncated 0 failed 0
           STATE sent 10 accepted 8 pending 1 rejected 1 conflict 1 duplicate 1 claim-rejected 0 no-participation 1 unanswered 1 unsent 1 unclear 0 unkeyed 1

       A status for a script, where something is rejected or claimed twice:

           $ cwr acks --fail-on rejected,conflict acks_*.cwr --sent sent_january.cwr > /dev/null 2>&1; echo $?
           1

       The same as lines of JSON, here what answers nothing and what isn't
       answered:

           $ cwr acks --json acks_4_991.cwr --sent sent_february.cwr 2> /dev/null | sed 1,3d
           {\"status\":\"RJ\",\"words\":\"rejected\",\"group\":1,\"transaction\":1,\"type\":\"NWR\",\"level\":\"T\",\"submitter\":\"AV-000016\",\"title\":\"COPPER AND RAIN\",\"renumbered\":\"AV-000006\",\"messages\":[{\"level\":\"T\",\"type\":\"T\",\"record\":0,\"record_type\":\"NWR\",\"text\":\"THIS NUMBER IS ANOTHER SUBMITTER'S\"}]}
           {\"unanswered\":{\"group\":1,\"transaction\":2,\"type\":\"NWR\",\"submitter\":\"AV-000007\"}}
           {\"acks\":4,\"statuses\":{\"CO\":0,\"DU\":0,\"RA\":1,\"AS\":1,\"AC\":1,\"SR\":0,\"CR\":0,\"RJ\":1,\"NP\":0,\"RC\":0}}

       A file from which a work was cut out by hand:

           $ cwr renumber --new work_missing.cwr -o mended.cwr
           cwr: work_missing.cwr: line 7: the transaction sequence of the group's first transaction is 1: transactions may be missing before it
           cwr: work_missing.cwr: line 9: the transaction count is 2, and 1 came; the record count is 6, and 4 came; lines may be missing before it, or stand twice
           cwr: work_missing.cwr: line 10: the transaction count is 3, and 2 came; the record count is 12, and 10 came; lines may be missing before it, or stand twice
           GOOD groups 2 transactions 2 records 10

       Just these works, sent again:

           $ printf '%s\\n' W0003 W0001 > numbers; cwr select --works numbers --created 20260301T090000 works.cwr -o chosen.cwr; cwr check chosen.cwr
           SELECTED 2 of 3
           GOOD groups 2 transactions 2 records 10
           $ echo W0099 >> numbers; cwr select --works numbers --created 20260301T090000 works.cwr -o more.cwr; echo $?
           SELECTED 2 of 3
           MISSING W0099
           1

       What was rejected or is in conflict, sent again:

           $ cwr select --state rejected,conflict --answers acks_2_991.cwr --created 20260302T090000 sent_january.cwr -o rejected.cwr
           SELECTED 2 of 6

       A new work that the society has is sent again as a revised one:

           $ echo W0001 > number; cwr select --works number --as REV --created 20260303T090000 works.cwr -o revised.cwr; cut -c 1-6 revised.cwr
           SELECTED 1 of 3
           HDRPB1
           GRHREV
           REV000
           SWR000
           GRT000
           TRL000

       Parts of one work each, and the whole again:

           $ cwr split --new -n 1 works.cwr -o part-
           SPLIT outputs 3 transactions 3
           $ cwr join --new -o whole.cwr part-00000001 part-00000002 part-00000003
           JOINED inputs 3 groups 3 transactions 3 records 14

       Parts that were created one after another, so that answers to them can
       be told apart:

           $ cwr split --new -n 2 --created 20260301T090000 works.cwr -o march-
           SPLIT outputs 2 transactions 3
           $ cwr show march-00000002 | grep creation
             6 creation date: 20260301
             7 creation time: 090001

       Is that the work of another house?

           $ cwr join --new --same-sender -o all.cwr works.cwr sent_january.cwr; echo $?
           cwr: sent_january.cwr: sent by 09 900000147 ALDERVALE MUSIC, and the first transmission by PB 123456789 MUSIC HOUSE
           cwr: sent_january.cwr has another sender than the first transmission
           2

       Data of a file that isn't good get no name:

           $ cwr json wrong_code.cwr -o wrong.jsonl; echo $?; ls wrong.jsonl 2> /dev/null
           REFUSED record 5 field 10 level T cell not a code
           1

       Does advice stand against sending it?

           $ cwr advise --quiet --fail-on F advised_work.cwr > advice; echo $?
           1

       The data out, and the same transmission again:

           $ cwr json works.cwr > works.jsonl
           GOOD groups 2 transactions 3 records 12
           $ cwr write works.jsonl -o again.cwr
           WRITTEN lines 9 bytes 1599

       Its works, for a spreadsheet:

           $ cwr csv works works.cwr 2> /dev/null | cut -d, -f4-7,9
           submitter_work_number,title,iswc,writers,writers_pr_share
           W0001,BLUE RIVER,,SMITH ANNA,
           W0002,RED HILL,,SMITH ANNA,
           W0003,GREEN SEA,,SMITH ANNA,

       Who wrote what:

           $ cwr csv SWR works.cwr 2> /dev/null | cut -d, -f1-3,5,24,25
           group,transaction,record,last_name,_work,_title
           1,0,1,SMITH,W0001,BLUE RIVER
           2,0,1,SMITH,W0002,RED HILL
           2,1,1,SMITH,W0003,GREEN SEA

       A file that isn't there:

           $ cwr check none.cwr; echo $?
           cwr: cannot open none.cwr
           cwr: none.cwr: No such file or directory (os error 2)
           3

SEE ALSO
       The format, and what to do about each reason of a refusal, stand in
       `FORMAT.md`, the lines of JSON in `JSON.md`, and what can be relied on
       in `TRUST.md`. They lie in `docs/`, beside this page; an installed
       program has them in `share/doc/cwr/docs/`.

       jq(1), sqlite3(1)
";
