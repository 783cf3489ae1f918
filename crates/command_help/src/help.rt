//! What `--help` teaches beside the list of words.

/// What the program is for.
pub const ABOUT: &str =
    "Lends sheets of a map archive and brings them home, each request with a receipt";

/// After the commands of the program.
pub const WORDS: &str = "Words:
  package  tiles, survey rows and media of a map, and the links between them
  archive  the package that all others are lent from
  loan     a package that a split took out of another, and that a merge brings home
  request  one of add, delete, link, unlink, split, merge; a list has one in each record
  receipt  what an accepted request leaves: a number, and all that it moved
  refusal  why a request was not carried out, by a number from 1 to 25

Example:
  sheetdesk rehearse --archive a0000000-0000-4000-8000-000000000000 --at 2024-05-01T08:00:00.000Z \\
    --frame 25832,0,0,4096,4096,256,256,0,3,1,1 < list.csv
With --serve 8080 --count 100 the same, and then a desk at http://127.0.0.1:8080 for 100 connections.

Exit status:
  0  done; of a list too of which requests were refused
  1  a word, a list or a request was refused; standard output has the line `refused: ` and what,
     or the refusal
  2  the command line is no use of the program
  3  memory, a store, a port, a reader or a writer gave out, or the packages of a folder are not in order;
     standard error has the line `store: ` and what

`sheetdesk rehearse --help` has the options and the form of a list, `sheetdesk init --help` a first session
with a folder of packages.";

/// After the options of `rehearse`.
pub const REHEARSE_WORDS: &str =
    "The eleven numbers of FRAME, in the unit of the reference system but for sizes in pixels and counts:
  srs_id                       number of the reference system (EPSG); -1 or 0 where there is none
  min_x,min_y,max_x,max_y      west, south, east and north edge, in thousandths
  tile_width,tile_height       pixels of a tile
  first_zoom,levels            the least zoom, and how many there are
  matrix_width,matrix_height   columns and rows of tiles at the least zoom; each further zoom doubles them
A FRAME that begins with `-` is given as --frame=-1,..

Standard input is the list, as CSV. Its first record is
  request,at,command,package,identity,other,kind,zoom,column,row,last_column,last_row,x,y,code,ticket,text,data
and each further one a request; fields that its command does not use are empty:
  add     package, identity, kind; of a tile zoom, column, row, data; of media text, data;
          of a row x, y, code, text
  delete  package, identity
  link    package, kind (tiles_media, rows_media or rows_tiles), identity (the base), other
  unlink  the same
  split   package, other (the loan), kind (strict or follow), zoom, column, last_column, row, last_row
  merge   package (the loan), other (where it goes home to), ticket (number of its last receipt)

Standard output is the report, a line for each request with the number of its receipt or of its refusal,
and then each package by UUID: its line, and its manifest with a record for each item and each link.
Of a long list a terminal on standard error is told how many requests are done.

Example:
  sheetdesk rehearse --archive a0000000-0000-4000-8000-000000000000 --at 2024-05-01T08:00:00.000Z \\
    --frame 25832,0,0,4096,4096,256,256,0,3,1,1 < list.csv
where list.csv has two lines, the first record above and this one, which adds a tile of one byte:
  90000000-0000-4000-8000-000000000001,2024-05-01T08:00:00.000Z,add,a0000000-0000-4000-8000-000000000000,00000000-0000-4000-8000-000000000001,,tile,2,3,3,,,,,,,,41
The report then has the line
  1,90000000-0000-4000-8000-000000000001,1,0

With --serve and --count the world that the list led to is then served, as JSON over HTTP: COUNT
connections of 127.0.0.1 at PORT, one after the other. Then the program ends, and nothing is kept.
The port is taken before the list is read, so a client may connect at once, and waits. Standard error is
told `listening on 127.0.0.1:PORT` then, and with --log a line a request: moment, request line, status.
  POST /requests                 a request, an object with the fields above that its command uses;
                                 answered by its receipt, or by its refusal
  GET  /packages                 the live packages, with what each holds
  GET  /packages/UUID/manifest   the manifest of one, as CSV
  GET  /receipts/UUID            the receipt of the request with this UUID

Example of a desk, for two connections, and of its clients in another terminal:
  sheetdesk rehearse --serve 8080 --count 2 --archive a0000000-0000-4000-8000-000000000000 \\
    --at 2024-05-01T08:00:00.000Z --frame 25832,0,0,4096,4096,256,256,0,3,1,1 < list.csv
  curl http://127.0.0.1:8080/packages
  curl http://127.0.0.1:8080/receipts/90000000-0000-4000-8000-000000000001

Exit status:
  0  the list was carried out, whatever its report says
  1  an option or the list was refused: `refused: uuid`, `at`, `frame`, `number`
     or `list`; nothing was done
  2  the command line is no use of the program
  3  memory, a store, the port, a reader or a writer gave out: `store: OutOfMemory` or `store: StoreFault`
     on standard error; what was printed before stands";

/// After the words of `holds`.
pub const HOLDS_WORDS: &str =
    "Standard output is a text for stock `sqlite3`, which lists what a GeoPackage holds, as CSV: a record for
each tile, medium, point and link, and a last one that counts them. Without options it is always the same,
and reads a file that `export` made and another program edited:
  sheetdesk export maps a0000000-0000-4000-8000-000000000000 | sqlite3 crew.gpkg
  sheetdesk holds | sqlite3 crew.gpkg > holds.csv
With options it reads tables of another program's file: a pyramid of tiles, or points, or both. The first
part is a record `frame`, whose text is the FRAME for `init`, or `bad` with a word that says why there is none.
  sheetdesk holds --tiles scans --points marks --geometry geom --code number --label name \\
    | sqlite3 other.gpkg > holds.csv
Only names of tables and columns are taken from the words; they stand in the text between quotation marks.
Close the program that edits a file before it is listed: what it has not saved is not there.

Exit status:
  0  the text was printed
  2  the command line is no use of the program
  3  memory or standard output gave out";

/// After the words of `session`.
pub const SESSION_WORDS: &str = "Each line of the file is one of
  ./sheetdesk WORDS..          a command, its words between single spaces, without quotes
  ./sheetdesk WORDS.. < INPUT  the same, with this file on standard input
  mkdir FOLDER                 a folder is made
  rm FILE                      a file is removed
  # ..                         a comment, which is printed, as an empty line is
Each is printed behind `$ `, then what it prints itself, then its status, as `status 1`, unless that is 0.
Whatever it was, the next line follows; with --strict, the first line whose status is not 0 is the last.
A folder that cannot be made, a file that cannot be removed and an INPUT that cannot be read have status 1;
a line that is none of these, and a session in a session, status 2.
A folder stays open for the lines behind that name it in the same way and say status, log, explain, receipt,
get, apply, put, lend, return, join or part. Any other line closes it first; `audit` opens it anew.

Example, where first.txt has these four lines:
  mkdir maps
  ./sheetdesk init --archive a0000000-0000-4000-8000-000000000000 --at 2024-05-01T08:00:00.000Z --frame 25832,0,0,4096,4096,256,256,0,3,1,1 maps
  ./sheetdesk import maps list.csv
  ./sheetdesk audit maps
and list.csv is of the form that `sheetdesk rehearse --help` tells:
  sheetdesk session first.txt

Exit status:
  0  the last line was reached
  1  the file cannot be read as text: `refused: session`; nothing was done
  2  the command line is no use of the program
  3  memory or standard output gave out
with --strict also the status of the first line that has another than 0";

/// After the words of a command over a folder.
pub const FOLDER_WORDS: &str =
    "A folder holds its packages as SQLite databases, each the file UUID.gpkg. It is one register: one
archive, and the loans that live. Files of loans that came home may stay there and count for nothing.
While the program runs, no other program can open them.

A first session, from the archive on:
  mkdir maps
  sheetdesk init --archive a0000000-0000-4000-8000-000000000000 --at 2024-05-01T08:00:00.000Z \\
    --frame 25832,0,0,4096,4096,256,256,0,3,1,1 maps
  sheetdesk import maps list.csv
  sheetdesk apply maps < request.json
  sheetdesk status maps
  sheetdesk log maps --last 20
  sheetdesk explain maps 00000000-0000-4000-8000-000000000001
  sheetdesk receipt maps 90000000-0000-4000-8000-000000000001
  sheetdesk manifest maps a0000000-0000-4000-8000-000000000000
  sheetdesk export maps a0000000-0000-4000-8000-000000000000 | sqlite3 true.gpkg
  sheetdesk export maps a0000000-0000-4000-8000-000000000000 --qgis true.gpkg > true.qgs
  sheetdesk holds | sqlite3 true.gpkg > holds.csv
  sheetdesk map maps > maps.svg
  sheetdesk audit maps
  sheetdesk serve maps 8080
  sheetdesk tidy maps
The form of list.csv is told by `sheetdesk rehearse --help`; request.json is an object with the same
fields, of which its command uses.

Standard output:
  init      archive UUID
  apply     the receipt of the request, or its refusal, as JSON on a line
  import    the report, a line for each request
  status    a line of headings, a line for each package, and how many files are of none, if any
  log       a line of headings, and a line for each receipt: number, moment, command, from, to, things, bytes
  get       the bytes of the item, and nothing else
  explain   a line for each receipt that names the item, as an item or as an end of a link; and where it is
  receipt   the receipt, as JSON on a line
  manifest  the records of the package
  export    SQL; `sqlite3 NEW.gpkg` makes a file of it that GDAL and QGIS open; with --qgis a QGIS project for
            the file of that name, which has to lie beside it
  map       SVG; who holds which sheets of one zoom, each package in its colour
  report    HTML; the register on one page, which needs no other file: who holds what, the ledger, the account.
            With LOAN the custody of that loan. Where the folder does not open, the fault and what to do
  audit     good and the number of receipts; or the name of what is wrong, as OutOfAccount
  serve     nothing
  tidy      removed and the name, a line for each file: of loans that came home, of splits that were
            stopped, and what stands beside no package

A desk says `listening on 127.0.0.1:PORT` on standard error once its port is taken. With --log it tells there
of each request: the moment, the request line and the status. It ends after COUNT connections, or with
status 3 once a store has failed.

Exit status:
  0  done; of a list whatever its report says
  1  refused: by the desk, or `refused: ` and what: uuid, at, frame, number, zoom, body, list,
     names, folder holds packages, no such package, no such request, no such identity
  2  the command line is no use of the program
  3  memory, a file, a port or a stream gave out, or the packages are not in order: standard error has
     the line `store: ` and the name of the fault; of an audit standard output has the name";

/// After the words of a verb.
pub const VERB_WORDS: &str =
    "A verb makes one request and carries it out. Its UUID and that of what it makes are new, and its moment
is that of the clock, unless they are given. A package and an item are named by their UUID, or by the first
digits of it: at least four, which no other has.

A first loan:
  mkdir maps
  sheetdesk init maps --frame 25832,0,0,4096,4096,256,256,0,3,1,1
  sheetdesk put maps a000 tile 2/3/3 sheet.png
  sheetdesk lend maps 1/1/1
  sheetdesk put maps c3f1 media harbour.jpg
  sheetdesk return maps c3f1
where a000 and c3f1 begin the UUIDs that `init` and `lend` print.

Standard output:
  lend, return, put, join, part   what was made, and the number and the sums of the receipt
  with --dry-run                  the request as JSON, as `sheetdesk apply` reads it; nothing changes

Exit status:
  0  done
  1  refused: by the register, with the refusal as JSON, or `refused: ` and what: uuid, area, place, point,
     code, type, body, not lent, no such package, two packages, no such item, two items, no mapping
  2  the command line is no use of the program
  3  memory, a file or a stream gave out, or the packages are not in order: standard error has the line `store: `
     and the name of the fault";

/// After the words of `drop` and of `put .. tiles`.
pub const SEVERAL_WORDS: &str =
    "Several requests are made, and carried out in turn. Their UUIDs and those of tiles are new. One that is refused
ends it; what was done before stands. Of a tree that was stopped the rest comes in when it is put again: a tile
that is there with the same bytes is passed over, and so is a file whose name is no number.

Examples:
  sheetdesk drop maps 6523
  sheetdesk put maps a000 tiles sheets
  sheetdesk put maps a000 tiles --tms gdal2tiles
where 6523 begins the UUID of an item, a000 that of a package, and sheets/2/3/3.png is a tile.

Standard output:
  drop        what was ended and deleted, and behind each the number and the sums of its receipt;
              without --yes the links for which an item stays, as `linked IDENTITY IDENTITY`
  put tiles   how many were added and passed over; behind it the refusal as JSON, if one was refused

Exit status:
  0  done
  1  refused: by the register, with the refusal as JSON, or `refused: ` and what: place, body, linked,
     no such package, two packages, no such item, two items
  2  the command line is no use of the program
  3  memory, a file or a stream gave out, or the packages are not in order: standard error has the line `store: `
     and the name of the fault";

/// After the words of `changes` and `bring`.
pub const BRING_WORDS: &str =
    "Standard input is the list that `sqlite3` prints of an edited file by the text of `holds`. An item that was
not changed stays what it is. One that was changed is deleted, and comes again under a new identity. Close the
program that edits the file before.
  sheetdesk export maps a0000000-0000-4000-8000-000000000000 | sqlite3 crew.gpkg
  sheetdesk holds | sqlite3 crew.gpkg > holds.csv
  sheetdesk bring maps a0000000-0000-4000-8000-000000000000 --dry-run --summary < holds.csv
  sheetdesk bring maps a0000000-0000-4000-8000-000000000000 < holds.csv
The package must be as it was when it was exported. With --more nothing is deleted, and the file may be another
program's. `changes` prints a list for `import`; `bring` carries it out at once, and prints its report.

Exit status:
  0  the list was printed; or it was carried out whole, and the package holds what the file holds
  1  nothing was done. Standard output has `refused: ` and `uuid`, `at`, `no such package`, `list`, `package`,
     `stale` and a number, `system`, `frame`, `items` and a line for each record that the package cannot hold,
     `identity` or `request` and a UUID that is not free, or `too many`. Standard error says what that means
  2  the command line is no use of the program
  3  memory, a store, a reader or a writer gave out";

/// After the words of `completions`.
pub const COMPLETIONS_WORDS: &str = "A line for ~/.bashrc:
  eval \"$(sheetdesk completions bash)\"";
