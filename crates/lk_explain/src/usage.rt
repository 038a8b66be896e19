/// How the commands are used.
pub const USAGE: &str = "\
usage: links check PROGRAM
       links sql PROGRAM
       links source PROGRAM ARG [--tables FILE] [--store NAME] [--fuel N]

check   prints the type of each function of PROGRAM
sql     prints the SQL of the queries and readings of tables in main and in what it uses
source  runs the function main of PROGRAM with ARG, and prints what it does

--tables FILE  the rows to begin with, as JSON: {\"TABLE\": [{\"COLUMN\": VALUE, ..}, ..], ..}
--store NAME   where tables are kept: memory, the one store there is
--fuel N       how many nodes may be evaluated, from 1 to 1000000000; 1000000 without it
--             what stands behind it is PROGRAM or ARG, also where it begins with -
";
