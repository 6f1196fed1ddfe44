//! Lines without an answer, carriage returns, blocks left open, words that are no command, and numbers of cores.

use crate::program::scripts::ScriptRow;

pub const ROWS: &[ScriptRow] = &[
    ScriptRow(b"", b""),
    ScriptRow(b"\n  \t\n# disp d 0\r\n", b""),
    ScriptRow(
        b"disp d 0\r\ndisp d 0\ndisp e 1\ndisp 1 0\ndisp d\nnope\nturn x\n",
        b"ok\nrefused E92\nrefused E73\nrefused E90\nrefused E90\nrefused E90\nrefused E92\n",
    ),
    ScriptRow(b"idl\ninterface i {\n.\n", b"refused E7 at 14\n"),
    ScriptRow(b"idl\ninterface i { }\ndisp d 0\n", b"refused E90\n"),
    ScriptRow(b"idl x\ndisp d 0", b"refused E90\nok\n"),
    ScriptRow(
        b"cores 16\ndisp d 15\ndisp e 16\n",
        b"ok\nok\nrefused E73\n",
    ),
    ScriptRow(b"cores 17\n", b"refused E94\n"),
    // a core is made before all but interfaces
    ScriptRow(b"disp d 0\ncores 2\n", b"ok\nrefused E93\n"),
    // no link stands between the two cores
    ScriptRow(
        b"cores 2\nforward 1 0\nmwrite 1 0\nmack 1 0\n",
        b"ok\nrefused E73\nrefused E73\nrefused E73\n",
    ),
];
