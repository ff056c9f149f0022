// Tables: "16 columns pass, 17 don't".
use crate::print::{Barred, Refused};
use std::io;
use table::table::read_table;

fn table(out: io::Stdout, text: &str) -> io::Result<()> {
    let bytes = text.as_bytes();
    print!(out; "table {}: ", Barred(bytes))?;
    match read_table(bytes) {
        Ok(table) => {
            let columns = table.tree.columns;
            let root = table.tree.root;
            print!(out; "ok, columns {columns}, root {root}, ")?;
            println!(out; "read {} of {}", table.end, bytes.len())
        }
        Err(refusal) => println!(out; "{}", Refused(refusal)),
    }
}

pub fn cases(out: io::Stdout) -> io::Result<()> {
    let many_columns = [
        "columns=16\nroot=0\nup=0,0,0,0,0,0,0,0,0,0,0,0,0,0,0,0\n",
        "columns=16\nroot=15\nup=1,2,3,4,5,6,7,8,9,10,11,12,13,14,15,15\n",
        "columns=17\nroot=0\nup=0,0,0,0,0,0,0,0,0,0,0,0,0,0,0,0,0\n",
        "columns=17\nroot=0\nup=0,0,0,0,0,0,0,0,0,0,0,0,0,0,0,0\n",
        "columns=17\nroot=17\nup=17\n",
        "columns=17\nroot=0\nup=\n",
        "columns=16\nroot=0\nup=0,0,0,0,0,0,0,0,0,0,0,0,0,0,0,0,0\n",
        "columns=16\nroot=0\nup=0,0,0,0,0,0,0,0,0,0,0,0,0,0,0\n",
        "columns=16\nroot=0\nup=0,0,0,0,0,0,0,0,0,0,0,0,0,0,0,16\n",
        "columns=16\nroot=16\nup=0,0,0,0,0,0,0,0,0,0,0,0,0,0,0,0\n",
    ];
    let others = [
        "columns=0\nroot=0\nup=0\n",
        "columns=03\nroot=0\nup=0,0,1\n",
        "columns=3\nroot=0\nup=0,2,1\n",
        "columns=3\nroot=0\nup=0,0,1",
        "columns=3\nroot=0\nup=0,0,1\nlist=0\n",
        "",
    ];
    for text in many_columns {
        table(out, text)?;
    }
    for text in others {
        table(out, text)?;
    }
    Ok(())
}
