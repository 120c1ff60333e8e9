//! The help. The man page, dictcol.1, says more.

/// What `--help` prints. It fits a screen of 24 lines of 80 columns.
pub const HELP: &str = "\
usage: dictcol encode [--plain DIR [--append|--onto OLD]] [OPTION ..] [FILE ..]
       dictcol decode [FILE | DIR]
       dictcol get [--check] DIR (TEXT .. | --rows A..B)
       dictcol count [--encoded | -z] [--sorted | --top N] [OPTION ..] [FILE ..]
       dictcol distinct [-z] [OPTION ..] [FILE ..]
       dictcol merge [--backend NAME] FILE ..
       dictcol shard N DIR [-z] [OPTION ..] [FILE ..]

Reads each FILE in turn, or those that --files0-from F names, or standard input.
encode    writes lines as JSON: the distinct lines, and a number for each line
decode    writes the lines back, byte for byte
get       writes the number of each TEXT in DIR/dict.txt, or rows A to B-1
count     writes how often each distinct line occurs, and the line
distinct  writes each line where it comes first, and no further time
merge     writes one file for several that encode wrote, one after another
shard     writes DIR/0 to DIR/N-1, equal lines into one file, and DIR/order
  --plain DIR; --append; --onto OLD, --onto-dictionary OLD  columns for NumPy
  --sorted, --top N, --at-least N  most frequent first, only N, only counts >= N
  --encoded; -z, --zero-terminated  of what encode wrote; zero bytes end lines
  -f N, --field N; -t C, --separator C  field N of lines, by tabs or bytes C
  --invalid HOW    lines that are not UTF-8: error, replace or skip
  --backend NAME   how texts are stored meanwhile: string, bucket or buffer
  -h, --help; --version; -- before FILE; crates/dictcol/dictcol.1 by bin/install
Exit status: 1 system or too many lines, 2 arguments or input, 141 closed output
";

/// What follows a message about arguments.
pub const USAGE: &str =
    "usage: dictcol encode|decode|get|count|distinct|merge|shard [OPTION ..] [FILE ..] (try dictcol --help)";
