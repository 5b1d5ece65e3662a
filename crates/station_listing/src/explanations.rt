//! What each code means, why it occurs and what to do about it.

use crate::codes::Code;

macro_rules! entries {
    ($code:expr; $($name:ident: $explanation:literal)*) => {
        match $code {
            $(Code::$name => CodeEntry { name: stringify!($name), explanation: $explanation },)*
        }
    };
}

/// The entry of a code in the table.
#[derive(Clone, Copy)]
pub struct CodeEntry {
    /// The name that the code is printed with.
    pub name: &'static str,
    /// What the code means, why it occurs and what to do about it, in sentences.
    pub explanation: &'static str,
}

impl Code {
    /// The entry of the code in the table.
    pub fn entry(self) -> CodeEntry {
        entries! { self;
            OddLength: "An image has an odd number of bytes. An EEPROM image is a list of words of two bytes each, so a byte is missing or one too \
                many is there. Read the image from the slave again, or get the file anew. With --hex, look for a missing pair of digits."
            BadSize: "An image has a wrong number of words. An image has 64 to 4096 words. The file of a slave of a line is its whole EEPROM, and \
                has a multiple of 64 words. Give the whole EEPROM of the slave, not a part of it or the file of another device."
            RunsOut: "The chain of categories runs out before its end mark. The header of a category, or its content, goes on past the last word. \
                Look at the image with show, which names the word, and write a whole image to the slave."
            BadCategory: "The content of a category can't be read. Strings, TXPDOs and RXPDOs have a form of their own, and this content stops in \
                the midst of one. Type 65535 marks the end and is no type of a category. Compare the content with the device's documentation, and \
                give it anew."
            NoRoom: "The categories don't fit into the EEPROM. With the new content the chain would go on past the last word of the slave. Give a \
                shorter content, or remove a category first."
            NoSlave: "The line has no such slave, or several that are like this. Slaves count from 0, in the order of the line and of the line file. \
                Correct the slave's number in the script or in the call; scan lists the slaves on a wire."
            SameSlave: "Both slaves of a swap are the same one. A slave can't change aliases with itself. Correct one of the two numbers."
            EmptyGroup: "A group has no edits. A group is 1 to 64 edits that are done as one act. Write the edits into the group, or leave the \
                command out."
            GroupTooLong: "A group has more than 64 edits. A group is 1 to 64 edits that are done as one act. Split it. Each of the groups is then \
                an act of its own."
            ImageTooLong: "An image is longer than the EEPROM of the slave. All its words have to have a place in the device. Give an image that was \
                made for this device."
            BadCheck: "The check byte is wrong. The low byte of word 7 doesn't go with words 0 to 6. Blank EEPROMs and damaged images are like that, \
                and an alias or a swap would make them look right. Look at the image with show. Write a whole image, whose check byte is right, \
                before the alias."
            NoSuchCategory: "There is no category of this type to remove. Without content an edit removes the category of its type, and the slave \
                has none. Leave the edit out, or correct the type."
            SeveralCategories: "There are several categories of this type. An edit exchanges or removes the one category of its type, and here it \
                isn't clear which one is meant. Write a whole image in place of the edit."
            BadChain: "The chain of categories can't be read. The header of a category, or its content, goes on past the last word of the slave. \
                Look at the image with show, which names the word, and write a whole image to the slave."
            ImageOverLimit: "The line would have no process image. All process data together may have 1486 bytes, and one slave 8 segments of it. \
                Map fewer process data, or take slaves out of the line."
            Memory: "There was no memory left. The system refused memory that the work needs. A refused command changes nothing; where a fault ended \
                the work, some of it may be done. Free memory, recover the line where a run or a recovery had begun, and try again."
            WrongIdentity: "The slave isn't the one that was expected. Its vendor, product code or revision differs from what the edit expects, just \
                before the edit. Look at the image with show; with --verbose, and on a wire, a line says both. Check that the slaves stand in the \
                right order, or correct what is expected."
            FrameFull: "A frame has no room for a datagram. An EtherCAT frame carries 1498 bytes of datagrams. Report this: the program never sends \
                so much at once."
            BadFrame: "A frame can't be read. Its bytes, from the named one on, are not the frame that its header promises. Look for a device on the \
                line that damages frames."
            Disk: "The disk failed. A read, a write or a flush of the journal, or of an image file, was answered with an error. Look at the disk, \
                and whether it is full. Then recover the line, which ends what the journal holds."
            Lost: "A frame was lost. The line gave no answer, so it isn't known whether the slave took the frame. Look at the cable and the link of \
                the slave, and recover the line."
            Stopped: "The station has stopped. The power was cut, as --fuse plans it. What was journaled before is kept. Recover the line: each \
                command that the journal holds in whole is completed. Of any other no word was written."
            SlaveDead: "A slave can't be worked on. A word of it couldn't be read or written in several tries, its EEPROM stayed busy, or on a wire \
                it doesn't answer, or not alone. Look at the slave, its power and its cables; on a wire the second line says what was seen. After a \
                run or a recovery recover the line once it answers: the journal keeps the command until then. On a wire pending says what the slave \
                is to get, and gives it up where it can't be written any more."
            NotAJournal: "The file is no journal. It is shorter than a header, or its first byte isn't 0xA5. A format that was cut short looks like \
                this. Check the name in the line file. For a new line, remove the file and use init."
            BadVersion: "The journal has a version that isn't known. The named version isn't 1 or 2, and it isn't a migration that was cut short. \
                Use the program that wrote it."
            BadJournal: "The journal is damaged. From the named byte on it isn't spelt as a journal is. A power cut leaves none like that. Move the \
                file away and keep it, look at each slave with show, and start a new journal with init."
            WrongLine: "The journal belongs to another line. It tells the number of slaves, and its live batches tell which words they write. Here \
                the line has another number of slaves, or a slave has no such word. It tells nothing else of the slaves: not which devices they are, \
                nor of words that no live batch writes. Check the journal's name, and the slaves in the line file. Nothing was written."
            TooLarge: "The command doesn't fit into the journal. One half of the journal's area has to hold the whole command. Split the command, or \
                start a journal with a larger area."
            Full: "No more commands can wait. 1024 commands wait already, or the journal has no room for them. Submit the command again once others \
                are done."
            Closed: "No more commands are taken. The book was closed: the work was finished, or a fault ended it. Look at the fault that was \
                printed, and recover the line."
            OldJournal: "The journal has the form of version 1. It is ended first, and no command is taken until it has the new form. Recover the \
                line, which brings the journal to the new form."
            WrongCounter: "A cycle was answered by another number of slaves than expected. The first number is the working counter that came back, \
                the second the one of all slaves with process data. Look for a slave that is off, or whose configuration is old."
            Mismatch: "The parts of the station don't belong together. A ticket, a receipt or a worker is missing at the end, so it isn't certain \
                that all was done. Report this with what was printed before."
            Unserved: "Commands were left undone. A fault ended the work before all words were in place. Look at the fault that was printed, and \
                recover the line."
            NoShare: "No more submitters can be added. The desk has no share left to hand out. Start with as many submitters as are needed."
            File: "A file or a stream couldn't be read or written. It isn't there, the system refused it, it gave no end, or the disk is full. Check \
                the names in the command, in the line file and in the script, the rights to the files, and where the output goes. After a run or a \
                recovery recover the line."
            BadHex: "The input is not hexadecimal text. With --hex it is pairs of the digits 0 to 9 and a to f, with spaces and line ends between \
                them. Leave --hex out for an input of bytes, or correct the text."
            BadLine: "The text is no line file. It has the keys journal, area and slave, and each slave has an image. Other keys, missing keys and \
                values out of range are not taken. Compare it with the line file in the help of sii_station run."
            BadScript: "The text is no script. The number is the place of the first bad command, counted from 0; it is 0 too where the text as a \
                whole is bad. Compare that command with the script in the help of sii_station run."
            Exists: "A file is there already where a new one is to be made, and what it holds would be lost: the journal of init, a journal, line \
                file or image of a backup, the image that read writes, or in place of a capture a file that is none. Where it is the journal of a \
                call that was cut, recover finishes that first. Else name another file, or move this one away."
            Busy: "Another station works on this journal, or writes this capture. Two stations that write the same slaves would leave neither's \
                commands. Wait until it ends, or end it, and try again. Nothing was written."
            SameFile: "Two names lead to the same file. The journal and the images of the slaves are written, so each has to be a file of its own: \
                under no other name, and under no link, the file of another slave, the line file or the script. An image that a script names is read \
                before, so it may be any file. While NAME is replaced, the new file is called .NAME.new, so no other file may have that name. Give \
                each slave a file of its own. Standard output may not go to an image that is read: name another file, or say alias -i; what a shell \
                has opened by > is empty by then. Nothing was written."
            NotAFile: "The name leads to a pipe, a device or a socket. A line file, a script, a journal and an image each have to be a file: it is \
                read to its end, and a journal or an image is written at places too. Copy what it gives into a file, and name that. Nothing was read \
                or written."
            TooLong: "The file is longer than any of its kind: a journal has at most 4194312 bytes, a line file or a script at most 67108864. Check \
                the name. Nothing was written."
            Silent: "No frame comes back from the line. A frame was sent three times, and each time none came back within the time-out. Look at the \
                cable, the interface's name and the power of the slaves. A longer time-out helps where the line is long."
            NoSlaves: "The line has no slaves. Frames come back, and no slave has taken one. Look at what the interface is connected to: it sends \
                frames back, but isn't an EtherCAT slave."
            TooManySlaves: "The line has more slaves than a line may have. A line has 1 to 64 slaves. The number is that of the slaves that took a \
                broadcast. Take the line apart, and work on one part at a time."
            UnknownSize: "The size of a slave's EEPROM can't be told. All words of the slave with this number that were compared are alike, and word \
                0x3E tells another size. Blank EEPROMs are like that. Look up the size of the EEPROM in the slave's data sheet, and say it: --words \
                SLAVE=N. With a line file later calls take it from the image file."
            OtherCount: "The line file names another number of slaves than the line has. Each slave of the line needs an image file. The number is \
                that of the slaves of the line. Correct the line file, or name one that isn't there to backup, which writes it."
            Differs: "A slave answered what it could not have answered. The slave with this number lost its power, fell out of the line, or is \
                worked on by somebody else. In brackets is what differs. See that nobody else works on the line, and look at the slave's power and \
                cables. Then recover the line."
            WordFailed: "A slave failed to write a word. The slave with this number ended the write of a word in error, so that the word may hold \
                anything. Recover the line, which writes the word again. If that ends so too, look at the slave's EEPROM."
            Unconfirmed: "A slave may not have taken a command. A command was sent again to the slave with this number and wasn't counted then, and \
                the slave wasn't seen busy with it. Recover the line. If it comes often, look at the cables: frames are lost."
            NotForWire: "A frame was to be sent that this program doesn't send over a wire. It has several datagrams for one slave, or a long one. \
                The station asks for none of them, so this is an error of the program. Report it, with the script and the line file. Recovering the \
                line is safe."
            SmallerChip: "An image file has more words than its slave's EEPROM. The words of the slave with this number repeat before the end of the \
                image, or can't be read there. Words written behind the end of an EEPROM replace its first ones. Make the backup anew, or put the \
                slave there that the image file is of. If you are sure that the EEPROM is as large as the image file, and its contents only repeat, \
                say --trust-images. Nothing was written."
            Running: "A slave is in Safe-Operational or Operational. The slave with this number exchanges process data with a master, or did so when \
                that ended. An application that reads its EEPROM meanwhile finds it taken. Bring the line to Init or Pre-Operational, and end the \
                master. With --force the slave is worked on as it is. Nothing was written."
            Held: "The PDI of a slave has the EEPROM. The EEPROM of the slave with this number was offered to its own processor, or that one has it \
                (0x0500 and 0x0501). Bring the slave to Init, in which a master takes the EEPROM back. With --force it is taken, and handed back at \
                the end. Nothing was written."
            OtherSize: "A command makes word 0x3E tell another size than the EEPROM has. The command with this number in the script changes word \
                0x3E, by which masters and tools tell the size of an EEPROM. Correct word 0x3E in the image of that command. If it is to be so, say \
                --resize. Nothing was written."
            StationAddress: "A slave has no station address of its own. Beside a master slaves keep the station addresses that it gave them. The \
                slave with this number has 0, or that of an earlier one. Have the master give each slave an address before it starts the station. \
                Without a master leave --beside out. Nothing was written."
            OtherDevice: "An image is that of another device than the slave. Its vendor or product differs from those of the slave with this number, \
                or it has fewer words than its EEPROM. Look at both with show, and name the right slave or the right image. If the slave is to \
                become this device, say --any-device, or in a script replace = true with the image. Nothing was written."
            OtherWords: "A slave has other words than its image file. Words that a recovery writes don't count. The slave with this number isn't the \
                one that it was, or was changed by another tool, or its image file was edited; in brackets are how many words differ, and the first \
                of them. A second line says what it usually is. Plug the cables as they were, or say for the slave which is right: --found takes its \
                words into the image file, --file writes those of the image file, and --exchanged gives a new slave of the same type what its place \
                had. Nothing was written."
            NothingPending: "Nothing is pending for the slave that is to be given up. The slave with this number has all words that the journal \
                names for it, or the line has no such slave. See with pending, without --give-up, for which slaves there is something, and recover \
                the line. Nothing was written."
        }
    }
}
