//! Databases written out.

/// Sessions of text over a link: a request on port 80 adds an entry by which its answer is shown as text.
pub const SESSIONS: &[u8] = b"<?xml version=\"1.0\"?>
<netpdl>
<variable name=\"$src\" type=\"buf\" value=\"''\"/>
<variable name=\"$dst\" type=\"buf\" value=\"''\"/>
<lookuptable name=\"sessions\" exactentries=\"1024\" maskentries=\"0\">
<key name=\"a\" size=\"4\"/><key name=\"b\" size=\"4\"/><key name=\"p\" size=\"2\"/><key name=\"q\" size=\"2\"/>
<data name=\"next\" type=\"proto\"/>
</lookuptable>
<showtemplate name=\"ip4\" showtype=\"dec\" showgrp=\"1\" showsep=\".\"/>
<showtemplate name=\"num\" showtype=\"dec\" showgrp=\"2\"/>
<showtemplate name=\"txt\" showtype=\"ascii\"/>
<showsumstruct><section name=\"No\"/><section name=\"Time\"/><section name=\"Info\"/></showsumstruct>
<showsumtemplate name=\"st\"><packethdr value=\"num\"/><section name=\"Time\"/><packethdr value=\"timestamp\"/></showsumtemplate>
<showsumtemplate name=\"ips\"><section name=\"Info\"/><protofield name=\"src\"/><text value=\" &gt; \"/><protofield name=\"dst\"/></showsumtemplate>
<showsumtemplate name=\"tcps\"><section name=\"Info\"/><text value=\" tcp \"/><protofield name=\"sport\"/><text value=\" \"/><protofield name=\"dport\"/></showsumtemplate>
<showsumtemplate name=\"txts\"><section name=\"Info\"/><text value=\" text \"/><protofield name=\"line\"/></showsumtemplate>
<protocol name=\"startproto\" showsum=\"st\"><encapsulation><switch expr=\"$linktype\">
<case value=\"1\"><nextproto proto=\"#ethernet\"/></case></switch></encapsulation></protocol>
<protocol name=\"ethernet\" longname=\"Ethernet\"><format><fields>
<field name=\"dst\" type=\"fixed\" size=\"6\"/><field name=\"src\" type=\"fixed\" size=\"6\"/>
<field name=\"type\" type=\"fixed\" size=\"2\"/></fields></format>
<encapsulation><switch expr=\"buf2int(type)\"><case value=\"0x0800\"><nextproto proto=\"#ip\"/></case></switch></encapsulation></protocol>
<protocol name=\"ip\" longname=\"IPv4\" showsum=\"ips\">
<execute-code><after><assign-variable name=\"$src\" value=\"src\"/><assign-variable name=\"$dst\" value=\"dst\"/></after></execute-code>
<format><fields>
<field name=\"ver\" type=\"bit\" size=\"1\" mask=\"0xF0\"/><field name=\"hlen\" type=\"bit\" size=\"1\" mask=\"0x0F\"/>
<field name=\"tos\" type=\"fixed\" size=\"1\"/><field name=\"tlen\" type=\"fixed\" size=\"2\" show=\"num\"/>
<field name=\"idfrag\" type=\"fixed\" size=\"4\"/><field name=\"ttl\" type=\"fixed\" size=\"1\"/>
<field name=\"proto\" type=\"fixed\" size=\"1\"/><field name=\"csum\" type=\"fixed\" size=\"2\"/>
<field name=\"src\" type=\"fixed\" size=\"4\" show=\"ip4\"/><field name=\"dst\" type=\"fixed\" size=\"4\" show=\"ip4\"/>
<field name=\"opts\" type=\"variable\" expr=\"buf2int(hlen)*4-20\"/></fields></format>
<encapsulation><switch expr=\"buf2int(proto)\"><case value=\"6\"><nextproto proto=\"#tcp\"/></case></switch></encapsulation></protocol>
<protocol name=\"tcp\" showsum=\"tcps\">
<execute-code><after><if expr=\"buf2int(dport)==80\"><if-true>
<update-lookuptable action=\"add\" table=\"sessions\" validity=\"updateonhit\" keeptime=\"60\" hittime=\"300\">
<key value=\"$dst\"/><key value=\"$src\"/><key value=\"dport\"/><key value=\"sport\"/><data value=\"#text\"/>
</update-lookuptable></if-true></if></after></execute-code>
<format><fields>
<field name=\"sport\" type=\"fixed\" size=\"2\" show=\"num\"/><field name=\"dport\" type=\"fixed\" size=\"2\" show=\"num\"/>
<field name=\"seqack\" type=\"fixed\" size=\"8\"/>
<field name=\"off\" type=\"bit\" size=\"1\" mask=\"0xF0\"/><field name=\"res\" type=\"bit\" size=\"1\" mask=\"0x0F\"/>
<field name=\"flags\" type=\"fixed\" size=\"1\"/><field name=\"win\" type=\"fixed\" size=\"2\"/>
<field name=\"csumurg\" type=\"fixed\" size=\"4\"/>
<field name=\"opts\" type=\"variable\" expr=\"buf2int(off)*4-20\"/></fields></format>
<encapsulation><if expr=\"checkupdatelookuptable(sessions,$src,$dst,sport,dport)\"><if-true>
<nextproto proto=\"$sessions.next\"/></if-true></if></encapsulation></protocol>
<protocol name=\"text\" showsum=\"txts\"><format><fields><field name=\"line\" type=\"line\" show=\"txt\"/></fields></format></protocol>
</netpdl>
";

/// Every validity of an entry, looked up with and without renewal.
pub const ENTRIES: &[u8] = b"<netpdl>
<lookuptable name=\"t\" exactentries=\"2\" maskentries=\"1\"><key name=\"k\" size=\"1\"/><data name=\"d\" type=\"buf\" size=\"1\"/></lookuptable>
<protocol name=\"startproto\"><encapsulation><nextproto proto=\"#op\"/></encapsulation></protocol>
<protocol name=\"op\"><format><fields>
<field name=\"o\" type=\"fixed\" size=\"1\"/><field name=\"k\" type=\"fixed\" size=\"1\"/><field name=\"v\" type=\"fixed\" size=\"1\"/>
<switch expr=\"buf2int(o)\">
<case value=\"1\"><update-lookuptable action=\"add\" table=\"t\" validity=\"keepforever\"><key value=\"k\"/><data value=\"v\"/></update-lookuptable></case>
<case value=\"2\"><update-lookuptable action=\"add\" table=\"t\" validity=\"keepmaxtime\" keeptime=\"5\"><key value=\"k\"/><data value=\"v\"/></update-lookuptable></case>
<case value=\"3\"><update-lookuptable action=\"add\" table=\"t\" validity=\"updateonhit\" keeptime=\"5\" hittime=\"3\"><key value=\"k\"/><data value=\"v\"/></update-lookuptable></case>
<case value=\"4\"><if expr=\"checklookuptable(t,k)\"><if-true><includeblk name=\"hit\"/></if-true><if-false><includeblk name=\"miss\"/></if-false></if></case>
<case value=\"5\"><if expr=\"checkupdatelookuptable(t,k)\"><if-true><includeblk name=\"hit\"/></if-true><if-false><includeblk name=\"miss\"/></if-false></if></case>
<case value=\"6\"><update-lookuptable action=\"add\" table=\"t\" validity=\"addonhit\" hittime=\"3\"><key value=\"k\" mask=\"0xF0\"/><data value=\"v\"/></update-lookuptable></case>
<case value=\"7\"><if expr=\"0 and checkupdatelookuptable(t,k)\"><if-true><includeblk name=\"hit\"/></if-true><if-false><includeblk name=\"miss\"/></if-false></if></case>
<case value=\"8\"><loop type=\"while\" expr=\"1\"/></case>
<case value=\"9\"><update-lookuptable action=\"add\" table=\"t\" validity=\"keepmaxtime\" keeptime=\"5\"><key value=\"k\"/><data value=\"v\"/></update-lookuptable><if expr=\"checklookuptable(t,k)\"><if-true><includeblk name=\"hit\"/></if-true><if-false><includeblk name=\"miss\"/></if-false></if></case>
</switch></fields><block name=\"hit\"/><block name=\"miss\"/></format></protocol>
</netpdl>
";

/// One protocol behind the first.
pub const FRAME: &[u8] = b"<netpdl>
<protocol name=\"startproto\"><encapsulation><nextproto proto=\"#frame\"/></encapsulation></protocol>
<protocol name=\"frame\"><format><fields><field name=\"head\" type=\"fixed\" size=\"2\"/></fields></format></protocol>
</netpdl>
";

/// A bit field that no other follows.
pub const LONE_BIT: &[u8] = b"<netpdl>
<protocol name=\"startproto\"><format><fields>
<field name=\"a\" type=\"bit\" size=\"1\" mask=\"0xF0\"/>
<field name=\"b\" type=\"fixed\" size=\"1\"/>
</fields></format></protocol>
</netpdl>
";

/// Two named blocks that include each other.
pub const CIRCLE: &[u8] = b"<netpdl>
<protocol name=\"startproto\"><format><fields><includeblk name=\"x\"/></fields>
<block name=\"x\"><includeblk name=\"y\"/></block>
<block name=\"y\"><includeblk name=\"x\"/></block>
</format></protocol>
</netpdl>
";

/// No protocol at all.
pub const EMPTY: &[u8] = b"<netpdl>
</netpdl>
";

/// What the others don't have: the remaining elements, forms and attributes.
pub const REMAINING: &[u8] = b"<netpdl name='all' version='1' creator='me' date='today'>
<variable name='$n' type='num' value='0x10' validity='packet'/><variable name='$p' type='proto' value='#a'/>
<showtemplate name='h' showtype='hex'/>
<showsumtemplate name='s'><packethdr value='len'/></showsumtemplate>
<protocol name='a'><execute-code><before><switch expr='$n'><case value='1' maxvalue='0xFF'/><default><assign-variable name='$n' value='$n+1'/></default></switch></before></execute-code>
<format><fields><block name='b' longname='B'>
<field name='t' type='tokenended' token=\"'\\x0d\\x0A'\" longname='T'/><field name='p' type='padding' align='4'/>
<loop type='size' expr='8'><loopctrl type='continue'/></loop><loop type='count' expr='2'><if expr='1'><if-true>
<loopctrl type='break'/></if-true></if></loop></block></fields></format></protocol></netpdl>";
